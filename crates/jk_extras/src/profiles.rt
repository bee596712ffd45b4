//! Restricted ICC profiles (T.800 I.5.3.3).

ghost use Rattle.std.specs.Prelude.{◌≡◌, ◌+◌, ◌*◌, ◌≤◌, ◌==◌, ◌||◌, length, drop};
ghost use Rattle.byteorder.specs.Endian.{big_number};
ghost use Rattle.jk_extras.specs.Profiles.{has_tag, lie_within, is_known_profile, has_space, has_table, has_curves};
ghost use Rattle.jk_extras.specs.Profiles.{has_size, is_restricted};

use byteorder::{BigEndian, ByteOrder};

/// How many bytes of a profile are written at most.
const LARGEST: usize = 1 << 24;

/// How many entries the table of a profile has at most.
const TAGS: u32 = 100;

/// The four bytes at a place.
fn field(profile: &[u8], at: usize) -> u32
    requires { at + 4 ≤ length profile.now }
    ensures { result ≡ big_number 4 (drop at profile.now) }
{
    BigEndian::read_u32(&profile[at..])
}

/// Whether a tag stands in a table of so many entries.
#[tactic(auto, using(crate::proofs::Tables::tag_step, crate::proofs::Tables::tag_none))]
fn has_tag(table: &[u8], count: u32, tag: u32) -> bool
    requires { 12 * count ≤ length table.now }
    ensures { result ≡ has_tag tag count table.now }
{
    for k in 0..count as usize {
        if field(table, 12 * k) == tag {
            return true;
        }
    }
    false
}

/// Whether what the entries of a table name lies within so many bytes.
#[tactic(auto, using(crate::proofs::Tables::within_step, crate::proofs::Tables::within_none))]
fn lie_within(table: &[u8], count: u32, size: usize) -> bool
    requires { 12 * count ≤ length table.now }
    ensures { result ≡ lie_within size count table.now }
{
    for k in 0..count as usize {
        let start = field(table, 12 * k + 4) as usize;
        if start + field(table, 12 * k + 8) as usize > size {
            return false;
        }
    }
    true
}

/// Whether the length is one that is written, and the one that the profile tells.
fn has_size(profile: &[u8]) -> bool
    ensures { result ≡ has_size profile.now }
{
    profile.len() >= 132 && profile.len() <= LARGEST && field(profile, 0) as usize == profile.len()
}

/// Whether the version is 2 or 4.
fn is_known_version(version: u8) -> bool
    ensures { result ≡ (version == 2) || (version == 4) }
{
    version == 2 || version == 4
}

/// Whether the class is that of input devices or that of display devices.
fn is_known_class(class: u32) -> bool
    ensures { result ≡ (class == 0x73636E72) || (class == 0x6D6E7472) }
{
    class == 0x7363_6E72 || class == 0x6D6E_7472
}

/// Whether it is a profile of an input or of a display, of version 2 or 4, whose colours are
/// connected by CIE XYZ.
#[tactic(auto, unfolding(crate::specs::Profiles::is_known_profile))]
fn is_known_profile(profile: &[u8]) -> bool
    requires { 132 ≤ length profile.now }
    ensures { result ≡ is_known_profile profile.now }
{
    if field(profile, 36) != 0x6163_7370 || !is_known_version(profile[8]) {
        return false;
    }
    if !is_known_class(field(profile, 12)) {
        return false;
    }
    field(profile, 20) == 0x5859_5A20
}

/// Whether the colour space is that of so many components.
fn has_space(profile: &[u8], components: u16) -> bool
    requires { 132 ≤ length profile.now }
    ensures { result ≡ has_space components profile.now }
{
    let space = field(profile, 16);
    (components == 1 && space == 0x4752_4159) || (components == 3 && space == 0x5247_4220)
}

/// Whether the table has at most 100 entries, all of it and of what they name in the profile.
#[tactic(auto, unfolding(crate::specs::Profiles::has_table))]
fn has_table(profile: &[u8]) -> bool
    requires { 132 ≤ length profile.now }
    ensures { result ≡ has_table profile.now }
{
    let count = field(profile, 128);
    if count > TAGS {
        return false;
    }
    if 132 + 12 * count as usize > profile.len() {
        return false;
    }
    lie_within(&profile[132..], count, profile.len())
}

/// Whether colours are made by curves, and of three components by a matrix, and not by tables.
#[tactic(auto, unfolding(crate::specs::Profiles::has_curves))]
fn has_curves(table: &[u8], count: u32, components: u16) -> bool
    requires { 12 * count ≤ length table.now }
    ensures { result ≡ has_curves components count table.now }
{
    if has_tag(table, count, 0x4132_4230) {
        return false;
    }
    if components == 1 {
        return has_tag(table, count, 0x6B54_5243);
    }
    has_tag(table, count, 0x7258_595A)
        && has_tag(table, count, 0x6758_595A)
        && has_tag(table, count, 0x6258_595A)
        && has_tag(table, count, 0x7254_5243)
        && has_tag(table, count, 0x6754_5243)
        && has_tag(table, count, 0x6254_5243)
}

/// Whether a profile may stand in a JP2 file of so many components.
#[tactic(auto, unfolding(crate::specs::Profiles::is_restricted))]
pub(crate) fn is_restricted(profile: &[u8], components: u16) -> bool
    ensures { result ≡ is_restricted components profile.now }
{
    if !has_size(profile) {
        return false;
    }
    if !is_known_profile(profile) || !has_space(profile, components) {
        return false;
    }
    if !has_table(profile) {
        return false;
    }
    has_curves(&profile[132..], field(profile, 128), components)
}
