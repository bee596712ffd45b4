//! Queries that ask for a window.

ghost use Rattle.std.specs.Prelude.{◌≡◌, List, ℕ, ◌∷◌, None, Some, IfOk, IfErr, is_none, if◌then◌else◌};
ghost use Rattle.std.specs.List.{list_all};
ghost use Rattle.std.specs.Char.{is_ascii_digit};
ghost use Rattle.jk_math.specs.Memory.{IsMemory};
ghost use Rattle.jk_web.specs.Queries.{pairs_of, number_of, queried_window, asked_by};
ghost use Rattle.jk_web.specs.Pairs.{are_none};
ghost use Rattle.jk_web.specs.Readings.{asked_with};

use form_urlencoded::{parse, raw_pairs};
use jk_math::Fault;
use jk_window::View;
use std::alloc::Global;

/// The most digits of a number.
const MOST_DIGITS: usize = 10;

/// The numbers of a query, as far as they were read.
#[derive(Clone, Copy)]
struct Readings {
    x: Option<u32>,
    y: Option<u32>,
    width: Option<u32>,
    height: Option<u32>,
    reduce: Option<u32>,
    layers: Option<u32>,
}

/// Whether each byte is a digit.
fn are_digits(text: &[u8]) -> bool
    ensures { result ≡ list_all is_ascii_digit text.now }
{
    text.iter().all(|byte| byte.is_ascii_digit())
}

/// The number that a text writes: 1 to 10 digits, and less than 2^32.
#[tactic(auto, unfolding(crate::specs::Queries::number_of, crate::specs::Queries::is_number))]
fn number(text: &str) -> Option<u32>
    ensures { result ≡ number_of text.now }
{
    if text.len() > MOST_DIGITS || !are_digits(text.as_bytes()) {
        return None;
    }
    text.parse().ok()
}

/// Whether a query has no pair.
pub(crate) fn is_empty(query: &[u8]) -> bool
    ensures { result ≡ are_none (pairs_of query.now) }
{
    raw_pairs(query).next().is_none()
}

/// Fills a place with a number. False where it was filled before.
fn fill(place: &mut Option<u32>, number: u32) -> bool
    ensures free { result ≡ is_none place.old }
    ensures new { place.new ≡ Some number }
{
    place.replace(number).is_none()
}

impl Readings {
    /// Keeps the number of a pair. False where the name isn't known or was read before, or the
    /// value is no number.
    fn keep(&mut self, key: &str, value: &str) -> bool
        ensures { (rest : List (List ℕ × List ℕ)) → asked_with self.old ((key.now, value.now) ∷ rest)
            ≡ (if result then asked_with self.new rest else None) }
    {
        let Some(number) = number(value) else {
            return false;
        };
        match key {
            "x" => fill(&mut self.x, number),
            "y" => fill(&mut self.y, number),
            "w" => fill(&mut self.width, number),
            "h" => fill(&mut self.height, number),
            "r" => fill(&mut self.reduce, number),
            "layers" => fill(&mut self.layers, number),
            _ => false,
        }
    }
}

impl Readings {
    /// The window, where its four sides were read.
    fn window(self) -> Option<View>
        ensures { result ≡ queried_window self.x self.y self.width self.height self.reduce self.layers }
    {
        Some(View {
            reduce: self.reduce.unwrap_or(0),
            x: self.x?,
            y: self.y?,
            width: self.width?,
            height: self.height?,
            layers: self.layers,
        })
    }
}

/// The window that a query asks for, by numbers `x`, `y`, `w` and `h`, by `r` where it isn't 0, and
/// by `layers` where not all are asked for. None where one of the four is missing, one of the six
/// stands twice, another name stands there, or a value is no number of 1 to 10 digits below 2^32.
pub fn window_asked(alloc: Global, query: &[u8]) -> Result<Option<View>, Fault>
    ensures exact { IfOk result (λ window. window ≡ asked_by (pairs_of query.now)) }
    ensures memory { IfErr result (λ e. IsMemory e) }
{
    let mut readings = Readings {
        x: None,
        y: None,
        width: None,
        height: None,
        reduce: None,
        layers: None,
    };
    for pair in parse(alloc, query) {
        let (key, value) = pair?;
        if !readings.keep(key.as_str(), value.as_str()) {
            return Ok(None);
        }
    }
    Ok(readings.window())
}
