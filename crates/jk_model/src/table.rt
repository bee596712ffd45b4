//! The table of Qe values and probability estimation (T.800 Table C.2).

/// One row of the table: what a context in this state codes with, and where it goes.
#[derive(Clone, Copy, Debug, PartialEq, Eq)]
pub struct Row {
    /// The size of the lower subinterval, Qe.
    pub qe: u32,
    /// The state after a more probable symbol, NMPS.
    pub next_mps: u8,
    /// The state after a less probable symbol, NLPS.
    pub next_lps: u8,
    /// Whether the less probable symbol flips the sense of the more probable one, SWITCH.
    pub switch: bool,
}

/// The 47 states in the order of their indices.
#[rattlefmt::skip]
pub static STATES: [Row; 47] = [
    Row { qe: 0x5601, next_mps: 1, next_lps: 1, switch: true },
    Row { qe: 0x3401, next_mps: 2, next_lps: 6, switch: false },
    Row { qe: 0x1801, next_mps: 3, next_lps: 9, switch: false },
    Row { qe: 0x0AC1, next_mps: 4, next_lps: 12, switch: false },
    Row { qe: 0x0521, next_mps: 5, next_lps: 29, switch: false },
    Row { qe: 0x0221, next_mps: 38, next_lps: 33, switch: false },
    Row { qe: 0x5601, next_mps: 7, next_lps: 6, switch: true },
    Row { qe: 0x5401, next_mps: 8, next_lps: 14, switch: false },
    Row { qe: 0x4801, next_mps: 9, next_lps: 14, switch: false },
    Row { qe: 0x3801, next_mps: 10, next_lps: 14, switch: false },
    Row { qe: 0x3001, next_mps: 11, next_lps: 17, switch: false },
    Row { qe: 0x2401, next_mps: 12, next_lps: 18, switch: false },
    Row { qe: 0x1C01, next_mps: 13, next_lps: 20, switch: false },
    Row { qe: 0x1601, next_mps: 29, next_lps: 21, switch: false },
    Row { qe: 0x5601, next_mps: 15, next_lps: 14, switch: true },
    Row { qe: 0x5401, next_mps: 16, next_lps: 14, switch: false },
    Row { qe: 0x5101, next_mps: 17, next_lps: 15, switch: false },
    Row { qe: 0x4801, next_mps: 18, next_lps: 16, switch: false },
    Row { qe: 0x3801, next_mps: 19, next_lps: 17, switch: false },
    Row { qe: 0x3401, next_mps: 20, next_lps: 18, switch: false },
    Row { qe: 0x3001, next_mps: 21, next_lps: 19, switch: false },
    Row { qe: 0x2801, next_mps: 22, next_lps: 19, switch: false },
    Row { qe: 0x2401, next_mps: 23, next_lps: 20, switch: false },
    Row { qe: 0x2201, next_mps: 24, next_lps: 21, switch: false },
    Row { qe: 0x1C01, next_mps: 25, next_lps: 22, switch: false },
    Row { qe: 0x1801, next_mps: 26, next_lps: 23, switch: false },
    Row { qe: 0x1601, next_mps: 27, next_lps: 24, switch: false },
    Row { qe: 0x1401, next_mps: 28, next_lps: 25, switch: false },
    Row { qe: 0x1201, next_mps: 29, next_lps: 26, switch: false },
    Row { qe: 0x1101, next_mps: 30, next_lps: 27, switch: false },
    Row { qe: 0x0AC1, next_mps: 31, next_lps: 28, switch: false },
    Row { qe: 0x09C1, next_mps: 32, next_lps: 29, switch: false },
    Row { qe: 0x08A1, next_mps: 33, next_lps: 30, switch: false },
    Row { qe: 0x0521, next_mps: 34, next_lps: 31, switch: false },
    Row { qe: 0x0441, next_mps: 35, next_lps: 32, switch: false },
    Row { qe: 0x02A1, next_mps: 36, next_lps: 33, switch: false },
    Row { qe: 0x0221, next_mps: 37, next_lps: 34, switch: false },
    Row { qe: 0x0141, next_mps: 38, next_lps: 35, switch: false },
    Row { qe: 0x0111, next_mps: 39, next_lps: 36, switch: false },
    Row { qe: 0x0085, next_mps: 40, next_lps: 37, switch: false },
    Row { qe: 0x0049, next_mps: 41, next_lps: 38, switch: false },
    Row { qe: 0x0025, next_mps: 42, next_lps: 39, switch: false },
    Row { qe: 0x0015, next_mps: 43, next_lps: 40, switch: false },
    Row { qe: 0x0009, next_mps: 44, next_lps: 41, switch: false },
    Row { qe: 0x0005, next_mps: 45, next_lps: 42, switch: false },
    Row { qe: 0x0001, next_mps: 45, next_lps: 43, switch: false },
    Row { qe: 0x5601, next_mps: 46, next_lps: 46, switch: false },
];
