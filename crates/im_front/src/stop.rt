//! Why the work of a transaction stops.

ghost use Rattle.std.specs.Prelude.{◌≡◌, ◌↔◌, Err, IfOk};
ghost use Rattle.im_base_types.specs.declared.fault.Fault.{Fault};
ghost use Rattle.im_base_steps.specs.declared.reply.Reply.TheVariants as replies;
ghost use Rattle.im_base_steps.specs.declared.reply.Reply.TheVariants.{Die};

use im_base_steps::Reply;
use im_base_types::Fault;

/// Why the work of a transaction stops before its end.
#[derive(Clone, Copy, Debug, PartialEq, Eq)]
pub enum Stop {
    /// It was told to give way: it is to be rolled back, and made again.
    GiveWay,
    /// It is given up, for this fault: what it did is to be rolled back.
    Refused(Fault),
}

impl Stop {
    ghost use Rattle.im_front.specs.declared.stop.Stop.TheVariants.{GiveWay, Refused};

    /// The reply, where the work goes on after it: not where the transaction has to give way, and not where the step was refused.
    pub fn unless(reply: Reply) -> Result<Reply, Stop>
        ensures same { IfOk result (λ r. r ≡ reply) }
        ensures gives_way { result ≡ Err GiveWay ↔ (reply ≡ Die) }
        ensures refused { (fault : Fault) → result ≡ Err (Refused fault) ↔ (reply ≡ replies.Refused fault) }
    {
        match reply {
            Reply::Die => Err(Stop::GiveWay),
            Reply::Refused(fault) => Err(Stop::Refused(fault)),
            reply => Ok(reply),
        }
    }
}
