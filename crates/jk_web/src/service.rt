//! What answers requests.

ghost use Rattle.std.specs.Prelude.{IfOk, IfErr};
ghost use Rattle.jk_math.specs.declared.fault.Fault.{Fault};
ghost use Rattle.jk_web.specs.declared.reply.Reply.{Reply};
ghost use Rattle.jk_web.specs.declared.request.Request.{Request};

use crate::reply::Reply as Answer;
use crate::request::Request as Question;
use jk_math::Fault as Refusal;
use std::alloc::Global;

/// What answers requests, one after another.
pub trait Service {
    // From the first state it may answer the request with this reply, and is then in the second.
    ghost gives: { Self → Request → Reply → Self → Type 0 };

    // From the first state it may refuse the request with this fault, and is then in the second.
    ghost refuses: { Self → Request → Fault → Self → Type 0 };

    /// Answers a request.
    fn answer(&mut self, alloc: Global, request: &Question) -> Result<Answer, Refusal>
        ensures ok { IfOk result (λ reply. gives self.old request.now reply self.new) }
        ensures err { IfErr result (λ e. refuses self.old request.now e self.new) };
}
