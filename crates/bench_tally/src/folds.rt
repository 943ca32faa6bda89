// A report folded into one number: what ended the reading, and then all that each task's tally holds.
ghost use Rattle.std.specs.Prelude.{◌≡◌, min};
ghost use Rattle.event_logs.specs.Stops.{as_ending};
ghost use Rattle.tally_rules.specs.Tally.{cell_count};
ghost use Rattle.bench_tally.specs.Folds.{span_folded, cells_folded, tally_folded, tallies_folded, ending_code};

use bench_sums::fold;
use event_logs::Stop;
use state_rules::choice::places;
use tally_histories::Reported;
use tally_rules::{CELLS, Span, Tallies, Tally};

fn fold_span(sum: u64, span: Option<Span>) -> u64
    ensures { result ≡ span_folded sum span }
{
    match span {
        None => fold(fold(sum, 0), 0),
        Some(Span { least, most }) => { fold(fold(sum, u64::from(least) + 1), u64::from(most) + 1) }
    }
}

fn fold_cells(sum: u64, cells: [u64; CELLS]) -> u64
    ensures { result ≡ cells_folded sum cells cell_count }
{
    let mut folded = sum;
    for cell in cells {
        folded = fold(folded, cell);
    }
    folded
}

fn fold_tally(sum: u64, of: Tally) -> u64
    ensures { result ≡ tally_folded sum of }
{
    let met = fold(fold(sum, u64::from(of.d)), of.met);
    fold_cells(fold(fold_span(met, of.span), of.sum), of.cells)
}

fn fold_tallies(sum: u64, of: Tallies, count: usize) -> u64
    ensures { result ≡ tallies_folded sum of (min count 16) }
{
    let mut folded = sum;
    for tally in &of.row[..places(count)] {
        folded = fold_tally(folded, *tally);
    }
    folded
}

fn ending_code(ending: Result<(), Stop>) -> u64
    ensures { result ≡ ending_code (as_ending ending) }
{
    match ending {
        Ok(()) => 0,
        Err(Stop { refusal, offset }) => fold(u64::from(refusal.number()), offset as u64),
    }
}

pub fn fold_report(of: Reported) -> u64
    ensures { result ≡ tallies_folded (ending_code (as_ending of.ending)) of.tallies (min of.state.count 16) }
{
    fold_tallies(ending_code(of.ending), of.tallies, of.state.count)
}
