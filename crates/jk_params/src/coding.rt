//! The coding of a tile-component.

ghost use Rattle.std.specs.Prelude.{◌≡◌, ◌+◌, ◌<◌, ◌≤◌, ℕ, List, IfOk, Ok, Some, option_map, nat_lt};
ghost use Rattle.std.specs.List.{list_any};
ghost use Rattle.jk_marks.specs.Segments.{Segment};
ghost use Rattle.jk_marks.specs.declared.siz.Siz.{Siz};
ghost use Rattle.jk_marks.specs.Codestream.{main_of, head_of};
ghost use Rattle.jk_params.specs.Coding.{every_precinct, coding_with, coding_of, HasPlanes};
ghost use Rattle.jk_params.specs.CodingReading.{style_in, quantisation_in, planes_at, head_or_none, coding_at};
ghost use Rattle.jk_params.specs.CodingReading.{codings_at};

use jk_geom::Codings;
use jk_marks::{Coding, CodingStyle, Main, Precincts, Quantisation, TileHead};
use jk_math::Fault;

/// The coding style that goes before others: the tile's COC, its COD, the COC and the COD of the
/// main header.
fn style_of<'a>(main: &'a Main, head: &'a TileHead, component: usize) -> &'a CodingStyle
    requires { component < 4 }
    ensures { result.now ≡ style_in main.now head.now component }
{
    if let Some(style) = &head.coc[component] {
        return style;
    }
    if let Some(cod) = &head.cod {
        return &cod.style;
    }
    if let Some(style) = &main.coc[component] {
        return style;
    }
    &main.cod.style
}

/// The quantization that goes before others: the tile's QCC, its QCD, the QCC and the QCD of the
/// main header.
fn quantisation_of<'a>(main: &'a Main, head: &'a TileHead, component: usize) -> &'a Quantisation
    requires { component < 4 }
    ensures { result.now ≡ quantisation_in main.now head.now component }
{
    if let Some(steps) = &head.qcc[component] {
        return steps;
    }
    if let Some(steps) = &head.qcd {
        return steps;
    }
    if let Some(steps) = &main.qcc[component] {
        return steps;
    }
    &main.qcd
}

/// The precinct sizes of each resolution.
fn precincts(style: &CodingStyle) -> Precincts
    ensures { result ≡ every_precinct style.now }
{
    if style.precincts.as_slice().is_empty() {
        return Precincts::greatest((style.levels as usize + 1).min(11));
    }
    style.precincts.copy()
}

/// What a style and a quantization make.
pub(crate) fn coding(style: &CodingStyle, steps: &Quantisation) -> Coding
    ensures { result ≡ coding_with style.now steps.now }
{
    Coding {
        levels: style.levels,
        xcb: style.xcb,
        ycb: style.ycb,
        precincts: precincts(style),
        style: style.style,
        guard: steps.guard,
        exponents: steps.exponents.front(3 * style.levels as usize + 1),
    }
}

/// Whether a sub-band has less than no magnitude plane.
fn has_none(guard: u8, exponents: &[u8]) -> bool
    ensures { result ≡ list_any (λ e. nat_lt (guard + e) 1) exponents.now }
{
    exponents
        .iter()
        .any(|exponent| guard as u16 + (*exponent as u16) < 1)
}

/// Whether a sub-band has more than 23 magnitude planes.
fn has_many(guard: u8, exponents: &[u8]) -> bool
    ensures { result ≡ list_any (λ e. nat_lt 24 (guard + e)) exponents.now }
{
    exponents
        .iter()
        .any(|exponent| guard as u16 + *exponent as u16 > 24)
}

/// The coding, with its exponents judged.
#[tactic(auto, unfolding(crate::specs::CodingReading::planes_at))]
fn judged(coding: Coding) -> Result<Coding, Fault>
    ensures { result ≡ planes_at coding }
{
    let exponents = coding.exponents.as_slice();
    if exponents.len() < 3 * coding.levels as usize + 1 || has_none(coding.guard, exponents) {
        return Err(Fault::BadValue);
    }
    if has_many(coding.guard, exponents) {
        return Err(Fault::Limit);
    }
    Ok(coding)
}

/// The same, of a tile whose first header says this.
fn with_head(main: &Main, head: &TileHead, component: u16) -> Result<Coding, Fault>
    requires { component < 4 }
    ensures exact { result ≡ coding_at main.now (Some head.now) component }
    ensures planes { IfOk result HasPlanes }
    ensures only { (siz : Siz) (segments tile : List Segment) → main.now ≡ main_of siz segments
        → head.now ≡ head_of tile
        → HasPlanes (coding_of segments tile component) → result ≡ Ok (coding_of segments tile component) }
    ensures found { (siz : Siz) (segments tile : List Segment) → main.now ≡ main_of siz segments
        → head.now ≡ head_of tile
        → IfOk result (λ k. k ≡ coding_of segments tile component) }
{
    let component = component as usize;
    judged(coding(
        style_of(main, head, component),
        quantisation_of(main, head, component),
    ))
}

/// The coding of a component of a tile, by the main header and the tile's first header (T.800 A.6,
/// E.1).
///
/// BadValue: fewer exponents than sub-bands, or less than no magnitude plane. Limit: more than 23
/// magnitude planes.
pub fn effective(main: &Main, head: Option<&TileHead>, component: u16) -> Result<Coding, Fault>
    requires { component < 4 }
    ensures exact { result ≡ coding_at main.now (option_map (λ h. h.now) head.entry) component }
    // What is given has magnitude planes.
    ensures planes { IfOk result HasPlanes }
    // A coding with magnitude planes is given.
    ensures only { (siz : Siz) (segments tile : List Segment) → main.now ≡ main_of siz segments
        → head_or_none (option_map (λ h. h.now) head.entry) ≡ head_of tile
        → HasPlanes (coding_of segments tile component) → result ≡ Ok (coding_of segments tile component) }
    // What is given is the coding by the segments.
    ensures found { (siz : Siz) (segments tile : List Segment) → main.now ≡ main_of siz segments
        → head_or_none (option_map (λ h. h.now) head.entry) ≡ head_of tile
        → IfOk result (λ k. k ≡ coding_of segments tile component) }
{
    match head {
        Some(head) => with_head(main, head, component),
        None => with_head(main, &TileHead::none(), component),
    }
}

/// The codings of all components of a tile whose first header says this.
pub(crate) fn codings(main: &Main, head: &TileHead) -> Result<Codings, Fault>
    requires { main.now.siz.components ≤ 4 }
    ensures { result ≡ codings_at main.now head.now }
{
    let mut codings = Codings::none();
    for component in 0..main.siz.components {
        codings.push(with_head(main, head, component)?);
    }
    Ok(codings)
}
