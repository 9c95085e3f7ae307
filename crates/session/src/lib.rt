// Replays a log of requests to a library, and gives what is printed for it.
#![tactic(auto)]

ghost use Rattle.session.specs.Law.{FollowsRules};
ghost use Rattle.session.specs.Output.{output};
ghost use Rattle.std.specs.Prelude.{◌≡◌, IfOk, string_bytes};

use lines::Lines;
use std::alloc::{AllocError, Global};
use transcript::Transcript;

mod limits;
mod lines;
mod state;
mod totals;
mod transcript;

// What the program prints for a log.
#[tactic(auto, using(crate::proofs::Following::follows_rules))]
pub fn replay(heap: Global, log: &[u8]) -> Result<String, AllocError>
    ensures prints { IfOk result (λ s. string_bytes s ≡ output log.now) }
    ensures follows { FollowsRules }
{
    let mut transcript = Transcript::new(heap);
    for (i, line) in Lines(log).enumerate() {
        transcript.take(i + 1, line)?;
    }
    transcript.close()
}

#[cfg(test)]
mod tests {
    use super::*;

    #[test]
    fn a_log_is_replayed(rt: HostRuntime) {
        let printed = replay(rt.alloc(), b"count\n\nlook-up z").expect(&rt, "memory suffices");
        assert_eq!(rt;
            printed.as_str(),
            "1: count 0\n3: look-up none\n0 accepted, 0 refused, 2 answered, 0 not carried out, 0 constants\n"
        );
    }
}
