//! The coding style and quantization segments.

ghost use Rattle.std.specs.Prelude.{◌≡◌, ◌≤◌, ◌<◌, ◌++◌, [], length, ◌+◌, ◌*◌, ◌/◌, ◌↔◌, map, take, replicate, All};
ghost use Rattle.std.specs.Prelude.{IsTrue, OnOk, IfErr, ◌∷◌};
ghost use Rattle.std.specs.List.{AllByRecursion};
ghost use Rattle.jk_math.specs.Memory.{IsMemory};
ghost use Rattle.jk_math.specs.Front.{IsFront};
ghost use Rattle.jk_marks.specs.Precincts.{precinct_byte};
ghost use Rattle.jk_marks.specs.Exponents.{exponents_of};
ghost use Rattle.jk_marks.specs.OrderCode.{order_code, order_with};

use jk_math::{Fault, Style};
use std::marker::Model;

/// The order of packets (T.800 A.6.1, table A.16).
#[derive(Clone, Copy, Debug, PartialEq, Eq)]
pub enum Order {
    /// Layer, resolution, component, position.
    Lrcp,
    /// Resolution, layer, component, position.
    Rlcp,
    /// Resolution, position, component, layer.
    Rpcl,
    /// Position, component, resolution, layer.
    Pcrl,
    /// Component, position, resolution, layer.
    Cprl,
}

impl Order {
    /// The order of a number, which is at most 4.
    pub(crate) fn with_code(code: u8) -> Order
        ensures { result ≡ order_with code }
    {
        match code {
            0 => Order::Lrcp,
            1 => Order::Rlcp,
            2 => Order::Rpcl,
            3 => Order::Pcrl,
            _ => Order::Cprl,
        }
    }

    /// The number of the order in COD.
    pub(crate) fn code(self) -> u8
        ensures { result ≡ order_code self }
    {
        match self {
            Order::Lrcp => 0,
            Order::Rlcp => 1,
            Order::Rpcl => 2,
            Order::Pcrl => 3,
            Order::Cprl => 4,
        }
    }
}

/// The precinct sizes of a coding style, as pairs of exponents PPx and PPy from the lowest
/// resolution on; none where they aren't given.
#[derive(Debug, Drop)]
pub struct Precincts {
    count: usize,
    exponents: [(u8, u8); 11],
}

impl Model for Precincts {
    ghost use Rattle.std.specs.Prelude.{List, ℕ, take, ◌≤◌};

    ghost Value = { List (ℕ × ℕ) };

    ghost view = { λ p. take p.count p.exponents };

    ghost invariant = { λ p. p.count ≤ 11 };
}

impl Precincts {
    /// No precinct sizes: each precinct is as large as can be.
    pub fn none() -> Precincts
        ensures { result ≡ [] }
    {
        Precincts {
            count: 0,
            exponents: [(0, 0); 11],
        }
    }

    /// These pairs.
    pub fn new(precincts: &[(u8, u8)]) -> Precincts
        requires { length precincts.now ≤ 11 }
        ensures { result ≡ precincts.now }
    {
        let mut all = [(0, 0); 11];
        all[..precincts.len()].copy_from_slice(precincts);
        Precincts {
            count: precincts.len(),
            exponents: all,
        }
    }

    /// The greatest precincts for `count` resolutions.
    pub fn greatest(count: usize) -> Precincts
        requires { count ≤ 11 }
        ensures { result ≡ replicate count (15, 15) }
    {
        Precincts {
            count,
            exponents: [(15, 15); 11],
        }
    }

    /// One pair more.
    pub(crate) fn push(&mut self, width: u8, height: u8)
        requires { length self.old < 11 }
        ensures { self.new ≡ self.old ++ (width, height) ∷ [] }
    {
        self.exponents[self.count] = (width, height);
        self.count += 1;
    }

    /// The same precinct sizes.
    pub fn copy(&self) -> Precincts
        ensures { result ≡ self.now }
    {
        Precincts {
            count: self.count,
            exponents: self.exponents,
        }
    }

    /// The pairs.
    pub fn as_slice(&self) -> &[(u8, u8)]
        ensures { result.now ≡ self.now }
    {
        &self.exponents[..self.count]
    }

    /// Appends a byte for each pair: PPx in the low half, PPy in the high half.
    pub(crate) fn put(&self, out: &mut Vec<u8>) -> Result<(), Fault>
        requires { AllByRecursion (λ p. (p.0 < 16) × (p.1 < 16)) self.now }
        ensures ok { OnOk result (out.new.items ≡ out.old.items ++ map precinct_byte self.now) }
        ensures err { IfErr result (λ e. IsMemory e) }
        ensures front { IsFront out.old.items out.new.items }
    {
        put_precincts(out, self.as_slice())
    }
}

/// Appends a byte for each pair of exponents.
fn put_precincts(out: &mut Vec<u8>, precincts: &[(u8, u8)]) -> Result<(), Fault>
    requires { AllByRecursion (λ p. (p.0 < 16) × (p.1 < 16)) precincts.now }
    ensures ok { OnOk result (out.new.items ≡ out.old.items ++ map precinct_byte precincts.now) }
    ensures err { IfErr result (λ e. IsMemory e) }
    ensures front { IsFront out.old.items out.new.items }
{
    for (width, height) in precincts {
        out.push(width + 16 * height)?;
    }
    Ok(())
}

/// The exponents of a quantization segment, in the order of the sub-bands: LL, then HL, LH and HH
/// of each level from the lowest resolution on.
#[derive(Debug, Drop)]
pub struct Exponents {
    count: usize,
    exponents: [u8; 31],
}

impl Model for Exponents {
    ghost use Rattle.std.specs.Prelude.{List, ℕ, take, ◌≤◌};

    ghost Value = { List ℕ };

    ghost view = { λ e. take e.count e.exponents };

    ghost invariant = { λ e. e.count ≤ 31 };
}

impl Exponents {
    /// These exponents.
    pub fn new(exponents: &[u8]) -> Exponents
        requires { length exponents.now ≤ 31 }
        ensures { result ≡ exponents.now }
    {
        let mut all = [0; 31];
        all[..exponents.len()].copy_from_slice(exponents);
        Exponents {
            count: exponents.len(),
            exponents: all,
        }
    }

    /// The exponents of these bytes, 31 of them at most: each stands in the high five bits.
    pub(crate) fn of_bytes(bytes: &[u8]) -> Exponents
        ensures { result ≡ exponents_of bytes.now }
    {
        let mut exponents = Exponents::new(&[]);
        exponents.push_bytes(&bytes[..bytes.len().min(31)]);
        exponents
    }

    /// The exponents of these bytes more.
    fn push_bytes(&mut self, bytes: &[u8])
        requires { length self.old + length bytes.now ≤ 31 }
        ensures { self.new ≡ self.old ++ map (λ b. b / 8) bytes.now }
    {
        for byte in bytes {
            self.push(byte / 8);
        }
    }

    /// One exponent more.
    pub(crate) fn push(&mut self, exponent: u8)
        requires { length self.old < 31 }
        ensures { self.new ≡ self.old ++ exponent ∷ [] }
    {
        self.exponents[self.count] = exponent;
        self.count += 1;
    }

    /// The exponents.
    pub fn as_slice(&self) -> &[u8]
        ensures { result.now ≡ self.now }
    {
        &self.exponents[..self.count]
    }

    /// The first `count` exponents, or all where there are fewer.
    pub fn front(&self, count: usize) -> Exponents
        ensures { result ≡ take count self.now }
    {
        Exponents {
            count: self.count.min(count),
            exponents: self.exponents,
        }
    }

    /// The same exponents.
    pub fn copy(&self) -> Exponents
        ensures { result ≡ self.now }
    {
        Exponents {
            count: self.count,
            exponents: self.exponents,
        }
    }

    /// How many exponents there are.
    pub fn len(&self) -> usize
        ensures { result ≡ length self.now }
    {
        self.count
    }

    /// Whether there is no exponent.
    pub fn is_empty(&self) -> bool
        ensures { IsTrue result ↔ (self.now ≡ []) }
    {
        self.count == 0
    }

    /// Appends a byte for each exponent, which stands in its high five bits.
    pub(crate) fn put(&self, out: &mut Vec<u8>) -> Result<(), Fault>
        requires { All (λ e. e < 32) self.now }
        ensures ok { OnOk result (out.new.items ≡ out.old.items ++ map (λ e. 8 * e) self.now) }
        ensures err { IfErr result (λ e. IsMemory e) }
        ensures front { IsFront out.old.items out.new.items }
    {
        put_exponents(out, &self.exponents[..self.count])
    }
}

/// Appends a byte for each exponent.
fn put_exponents(out: &mut Vec<u8>, exponents: &[u8]) -> Result<(), Fault>
    requires { All (λ e. e < 32) exponents.now }
    ensures ok { OnOk result (out.new.items ≡ out.old.items ++ map (λ e. 8 * e) exponents.now) }
    ensures err { IfErr result (λ e. IsMemory e) }
    ensures front { IsFront out.old.items out.new.items }
{
    for exponent in exponents {
        out.push(8 * exponent)?;
    }
    Ok(())
}

/// The coding style of a tile-component (T.800 A.6.1, table A.15): the reversible 5-3 filter.
#[derive(Debug, Drop)]
pub struct CodingStyle {
    /// How many decomposition levels there are.
    pub levels: u8,
    /// The exponent of a code-block's width.
    pub xcb: u8,
    /// The exponent of a code-block's height.
    pub ycb: u8,
    /// The code-block style (table A.19).
    pub style: Style,
    /// The precinct sizes, where they are given.
    pub precincts: Precincts,
}

/// The coding style default segment (T.800 A.6.1).
#[derive(Debug, Drop)]
pub struct Cod {
    /// Whether SOP may stand before packets.
    pub sop: bool,
    /// Whether EPH stands after packet headers.
    pub eph: bool,
    pub order: Order,
    pub layers: u16,
    /// Whether components 0 to 2 have gone through the colour transform.
    pub colour: bool,
    pub style: CodingStyle,
}

/// A quantization segment of the reversible path (T.800 A.6.4): no quantization.
#[derive(Debug, Drop)]
pub struct Quantisation {
    /// How many guard bits there are.
    pub guard: u8,
    pub exponents: Exponents,
}
