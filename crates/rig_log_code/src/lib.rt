// The code of a log on a state: what ended the reading, or the last event's answer.
#![tactic(auto)]

ghost use Rattle.std.specs.Prelude.{◌≡◌, ◌+◌, ◌^◌, ◌<◌};
ghost use Rattle.apply_events.specs.Answer.{as_told};
ghost use Rattle.rig_codes.specs.Code.{code_for, of_answer, log_case};

use apply_events::Answer;
use state_rules::State;

// 32 + N for refusal N.
pub fn refusal(number: u8) -> u32
    ensures { result ≡ 32 + number }
{
    32 + u32::from(number)
}

// The chosen task, 0 to 15, 16 for none, or the refusal.
fn code_of(answer: Answer) -> u32
    requires { code_for (of_answer (as_told answer)) < 2 ^ 32 }
    ensures { result ≡ code_for (of_answer (as_told answer)) }
{
    match answer {
        Ok(Some(chosen)) => chosen.position as u32,
        Ok(None) => 16,
        Err(refused) => refusal(refused.number()),
    }
}

// What ended the reading, and then the last event's answer.
pub fn log_code(state: State, log: &[u8]) -> u32
    ensures { result ≡ code_for (log_case state log.now) }
{
    let ran = apply_engine::log::run(state, log);
    match ran.ending {
        Ok(()) => code_of(ran.answer),
        Err(stop) => refusal(stop.refusal.number()),
    }
}
