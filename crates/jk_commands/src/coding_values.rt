//! What the tiles and components of an image have in common, as values.

ghost use Rattle.std.specs.Prelude.{◌≡◌, ◌<◌, ◌++◌, ◌^◌, ◌==◌, ◌&&◌, not, ℕ, IfOk, OnOk};
ghost use Rattle.std.specs.List.{list_all, AllByRecursion};
ghost use Rattle.std.specs.String.{string_bytes};
ghost use Rattle.jk_marks.specs.Coding.{IsCoding};
ghost use Rattle.jk_params.specs.Headers.{AreHeaders};
ghost use Rattle.jk_commands.specs.AllLines.{are_alike, hold_of_codings, hold_of_styles, first_coding, block_values};
ghost use Rattle.jk_commands.specs.AllLines.{has_style, word_if, style_text, style_values};
ghost use Rattle.jk_commands.specs.AllLines.{precincts_text, precinct_values, flag_in, flag_values};

use crate::values::{put_size, put_value};
use jk_geom::Codings;
use jk_marks::{Cod, Coding};
use jk_math::Style;
use jk_params::Codestream;
use std::alloc::{AllocError, Global};

/// What a coding style says yes or no to.
#[derive(Clone, Copy, Debug, PartialEq, Eq)]
pub enum Flag {
    /// SOP may stand before packets.
    Sop,
    /// EPH stands after packet headers.
    Eph,
    /// The components have gone through the colour transform.
    Colour,
}

impl Flag {
    /// What a coding style says.
    fn of(self, cod: &Cod) -> bool
        ensures { result ≡ flag_in self cod.now }
    {
        match self {
            Flag::Sop => cod.sop,
            Flag::Eph => cod.eph,
            Flag::Colour => cod.colour,
        }
    }
}

/// The coding of the first component of the first tile.
fn first_coding(headers: &Codestream) -> &Coding
    requires { (size : ℕ) × AreHeaders size headers.now }
    ensures value { result.now ≡ first_coding headers.now }
    ensures sound { IsCoding result.now }
{
    &headers.codings(0).as_slice()[0]
}

/// Whether each of these codings has code-blocks of this size.
fn have_blocks(codings: &Codings, xcb: u8, ycb: u8) -> bool
    ensures { result ≡ list_all (λ k. (k.xcb == xcb) && (k.ycb == ycb)) codings.now }
{
    codings
        .as_slice()
        .iter()
        .all(|coding| coding.xcb == xcb && coding.ycb == ycb)
}

/// Whether each component of each tile has code-blocks of this size.
#[tactic(auto, using(jk_params::proofs::Laws::below_none, jk_params::proofs::Laws::below_more, jk_params::proofs::Laws::below_fails))]
fn all_have_blocks(headers: &Codestream, xcb: u8, ycb: u8) -> bool
    ensures { result ≡ hold_of_codings (λ k. (k.xcb == xcb) && (k.ycb == ycb)) headers.now }
{
    for number in 0..headers.tile_count() {
        if !have_blocks(headers.codings(number), xcb, ycb) {
            return false;
        }
    }
    true
}

/// Whether each of these codings has code-blocks of this style.
fn have_style(codings: &Codings, style: Style) -> bool
    ensures { result ≡ list_all (has_style style) codings.now }
{
    codings.as_slice().iter().all(|coding| {
        coding.style.reset == style.reset
            && coding.style.causal == style.causal
            && coding.style.segments == style.segments
    })
}

/// Whether each component of each tile has code-blocks of this style.
#[tactic(auto, using(jk_params::proofs::Laws::below_none, jk_params::proofs::Laws::below_more, jk_params::proofs::Laws::below_fails))]
fn all_have_style(headers: &Codestream, style: Style) -> bool
    ensures { result ≡ hold_of_codings (has_style style) headers.now }
{
    for number in 0..headers.tile_count() {
        if !have_style(headers.codings(number), style) {
            return false;
        }
    }
    true
}

/// Whether each of these codings has these precinct sizes.
fn have_precincts(codings: &Codings, sizes: &[(u8, u8)]) -> bool
    ensures { result ≡ list_all (λ k. are_alike k.precincts sizes.now) codings.now }
{
    codings
        .as_slice()
        .iter()
        .all(|coding| coding.precincts.as_slice() == sizes)
}

/// Whether each component of each tile has these precinct sizes.
#[tactic(auto, using(jk_params::proofs::Laws::below_none, jk_params::proofs::Laws::below_more, jk_params::proofs::Laws::below_fails))]
fn all_have_precincts(headers: &Codestream, sizes: &[(u8, u8)]) -> bool
    ensures { result ≡ hold_of_codings (λ k. are_alike k.precincts sizes.now) headers.now }
{
    for number in 0..headers.tile_count() {
        if !have_precincts(headers.codings(number), sizes) {
            return false;
        }
    }
    true
}

/// Whether each tile says yes.
#[tactic(auto, using(jk_params::proofs::Laws::below_none, jk_params::proofs::Laws::below_more, jk_params::proofs::Laws::below_fails))]
fn each_has(headers: &Codestream, flag: Flag) -> bool
    ensures { result ≡ hold_of_styles (flag_in flag) headers.now }
{
    for number in 0..headers.tile_count() {
        if !flag.of(headers.cod(number)) {
            return false;
        }
    }
    true
}

/// Whether no tile says yes.
#[tactic(auto, using(jk_params::proofs::Laws::below_none, jk_params::proofs::Laws::below_more, jk_params::proofs::Laws::below_fails))]
fn none_has(headers: &Codestream, flag: Flag) -> bool
    ensures { result ≡ hold_of_styles (λ c. not (flag_in flag c)) headers.now }
{
    for number in 0..headers.tile_count() {
        if flag.of(headers.cod(number)) {
            return false;
        }
    }
    true
}

/// The power of two of an exponent.
fn power(exponent: u8) -> u64
    requires { exponent < 16 }
    ensures { result ≡ 2 ^ exponent }
{
    1 << exponent
}

/// The size of the code-blocks, or `differ`.
#[tactic(auto, unfolding(crate::specs::AllLines::block_values))]
pub(crate) fn block_values(alloc: Global, headers: &Codestream) -> Result<String, AllocError>
    requires { (size : ℕ) × AreHeaders size headers.now }
    ensures { IfOk result (λ s. string_bytes s ≡ block_values headers.now) }
{
    let mut values = String::new(alloc);
    let coding = first_coding(headers);
    if all_have_blocks(headers, coding.xcb, coding.ycb) {
        put_size(alloc, &mut values, power(coding.xcb), power(coding.ycb))?;
        return Ok(values);
    }
    put_value(&mut values, "differ")?;
    Ok(values)
}

/// Appends a word, if it holds.
fn put_word(values: &mut String, holds: bool, word: &str) -> Result<(), AllocError>
    ensures { OnOk result (string_bytes values.new ≡ string_bytes values.old ++ word_if holds word.now) }
{
    if holds {
        put_value(values, word)?;
    }
    Ok(())
}

/// Appends what is coded otherwise in a style.
fn put_style(values: &mut String, style: Style) -> Result<(), AllocError>
    ensures { OnOk result (string_bytes values.new ≡ string_bytes values.old ++ style_text style) }
{
    put_word(values, style.reset, "reset")?;
    put_word(values, style.causal, "causal")?;
    put_word(values, style.segments, "segments")?;
    Ok(())
}

/// The style of the code-blocks, or `differ`.
#[tactic(auto, unfolding(crate::specs::AllLines::style_values))]
pub(crate) fn style_values(alloc: Global, headers: &Codestream) -> Result<String, AllocError>
    requires { (size : ℕ) × AreHeaders size headers.now }
    ensures { IfOk result (λ s. string_bytes s ≡ style_values headers.now) }
{
    let mut values = String::new(alloc);
    let style = first_coding(headers).style;
    if all_have_style(headers, style) {
        put_style(&mut values, style)?;
        return Ok(values);
    }
    put_value(&mut values, "differ")?;
    Ok(values)
}

/// Appends precinct sizes.
fn put_precincts(alloc: Global, values: &mut String, sizes: &[(u8, u8)]) -> Result<(), AllocError>
    requires { AllByRecursion (λ p. (p.0 < 16) × (p.1 < 16)) sizes.now }
    ensures { OnOk result (string_bytes values.new ≡ string_bytes values.old ++ precincts_text sizes.now) }
{
    for (width, height) in sizes {
        put_size(alloc, values, power(*width), power(*height))?;
    }
    Ok(())
}

/// The size of the precincts of each resolution, from the lowest on, or `differ`.
#[tactic(auto, unfolding(crate::specs::AllLines::precinct_values))]
pub(crate) fn precinct_values(alloc: Global, headers: &Codestream) -> Result<String, AllocError>
    requires { (size : ℕ) × AreHeaders size headers.now }
    ensures { IfOk result (λ s. string_bytes s ≡ precinct_values headers.now) }
{
    let mut values = String::new(alloc);
    let sizes = first_coding(headers).precincts.as_slice();
    if all_have_precincts(headers, sizes) {
        put_precincts(alloc, &mut values, sizes)?;
        return Ok(values);
    }
    put_value(&mut values, "differ")?;
    Ok(values)
}

/// One text where each tile says yes, another where none does, or `differ`.
#[tactic(auto, unfolding(crate::specs::AllLines::flag_values))]
pub(crate) fn flag_values(
    alloc: Global,
    headers: &Codestream,
    flag: Flag,
    each: &str,
    none: &str,
) -> Result<String, AllocError>
    ensures { IfOk result (λ s. string_bytes s ≡ flag_values flag each.now none.now headers.now) }
{
    let mut values = String::new(alloc);
    if each_has(headers, flag) {
        put_value(&mut values, each)?;
    } else if none_has(headers, flag) {
        put_value(&mut values, none)?;
    } else {
        put_value(&mut values, "differ")?;
    }
    Ok(values)
}
