// A log in chunks, as the program reads it: each is reported on from the state and the tallies that the one before left.
ghost use Rattle.std.specs.Prelude.{◌≡◌, ◌≤◌, ◌/◌, length};
ghost use Rattle.tally_histories.specs.Answer.{as_reported};
ghost use Rattle.bench_tally.specs.Chunks.{chunk_size, chunk_at, chunk_count, chunks_reported};

use refusals::Refusal;
use state_rules::State;
use tally_histories::Reported;
use tally_rules::Tallies;
use tally_runs::report::run;

// 3,276 records.
const CHUNK: usize = 65520;

// The product is within the log, so that it cannot wrap.
fn chunk(log: &[u8], i: usize) -> &[u8]
    requires { i ≤ length log.now / chunk_size }
    ensures { result.now ≡ chunk_at log.now i }
{
    let rest = &log[CHUNK * i..];
    &rest[..rest.len().min(CHUNK)]
}

// What ends one chunk ends the whole.
pub fn carry(state: State, tallies: Tallies, log: &[u8]) -> Result<Reported, Refusal>
    ensures { let r = chunks_reported state tallies log.now (chunk_count log.now) in as_reported r.state r.tallies result ≡ r }
{
    let chunks = log.len() / CHUNK + 1;
    let mut done = Reported {
        state,
        tallies,
        ending: Ok(()),
    };
    for i in 0..chunks {
        if done.ending.is_ok() {
            done = run(done.state, done.tallies, chunk(log, i))?;
        }
    }
    Ok(done)
}
