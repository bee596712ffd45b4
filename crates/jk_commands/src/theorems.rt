//! Laws.

ghost use Rattle.jk_math.specs.Answer.{Answers};
ghost use Rattle.jk_math.specs.Picture.{Picture};
ghost use Rattle.jk_pnm.specs.Pnm.{IsPnm};
ghost use Rattle.jk_commands.specs.Commands.{encoded_and_decoded, encoded_and_given};

use crate::decoding::decode_file;
use crate::encoding::encode_file;
use jk_math::Fault;
use jk_options::Plan;
use std::alloc::Global;

/// What `jk decode` writes of what `jk encode` writes of a PGM or PPM file.
pub fn encode_and_decode(alloc: Global, bytes: Vec<u8>, plan: Plan) -> Result<Vec<u8>, Fault>
    ensures exact { Answers (λ v. v.items) result (encoded_and_decoded bytes.items plan) }
    // Of a file of a picture that is the file which is written for the picture, wherever it was
    // placed.
    ensures same { (p : Picture) → IsPnm bytes.items p
        → Answers (λ v. v.items) result (encoded_and_given bytes.items plan p) }
{
    let file = encode_file(alloc, bytes, plan)?;
    decode_file(alloc, file, 0)
}
