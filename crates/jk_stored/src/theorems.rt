//! Laws: the contract of an empty function is the law.

ghost use Rattle.std.specs.Prelude.{◌≡◌, ◌≤◌, ℕ, List, ◌++◌, length, Ok};
ghost use Rattle.jk_packet.specs.Reading.{HeaderText, PrecinctState, header_at};

/// The header of a packet that is read in the first bytes of a part, six or more, is that which is
/// read in all of it: bits are read from front to back, and so are the markers around them (T.800
/// A.8, B.10).
pub fn headers_are_read_forward()
    ensures { (layer : ℕ) (bytes more : List ℕ) (s : PrecinctState) (o : HeaderText × PrecinctState)
        → 6 ≤ length bytes → header_at layer bytes s ≡ Ok o → header_at layer (bytes ++ more) s ≡ Ok o }
{}
