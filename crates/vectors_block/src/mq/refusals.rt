//! An encoder that was refused memory. With all its memory this test sees one that isn't; a script
//! beside the proofs refuses each growth in turn, and wants that its other end is met.

use jk_math::Fault;
use jk_mqenc::Encoder;
use std::process::Abort;
use std::test::Fail;

/// An encoder that was refused memory answers so from then on, also where its contexts are to take
/// their first states again, and to its end.
#[test]
fn a_refused_encoder_stays_so(rt: HostRuntime) -> Result<(), Fail> {
    let mut encoder = Encoder::new(rt.alloc());
    for decision in 0..2000u32 {
        if encoder.encode(0, decision % 3 == 0).is_ok() {
            continue;
        }
        encoder.reset();
        let again = encoder.encode(18, true).err();
        assert!(rt; matches!(again, Some(Fault::Memory(_))), "{again:?}");
        let end = encoder.finish().err();
        assert!(rt; matches!(end, Some(Fault::Memory(_))), "{end:?}");
        return Err("it stayed refused".into());
    }
    encoder.finish()?;
    Ok(())
}
