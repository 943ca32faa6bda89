// The order of open jobs as one number.
ghost use Rattle.std.specs.Prelude.{◌≡◌};
ghost use Rattle.task_steps.specs.Rank.{key_of};

use task_records::Record;

pub fn key(of: Record) -> u64
    ensures { result ≡ key_of of }
{
    u64::from(of.class) * 4294967296 + u64::from(of.task.d)
}
