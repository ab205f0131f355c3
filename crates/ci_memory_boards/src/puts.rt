//! Records put among others, by their numbers.

ghost use Rattle.std.specs.Prelude.{◌≡◌, ◌≤◌, ◌==◌, ℕ, not, filter, length, nat_lt, OnSome};
ghost use Rattle.std.specs.List.{prefix_len};
ghost use Rattle.std.specs.Ordering.{nat_cmp};
ghost use Rattle.ci_machine_steps.specs.Prelude.{put};

use ci_machine::records::{Attempt, BoardRow, Job};

/// A record that stands among others by a number. There is one of each number.
pub(crate) trait Numbered {
    ghost number_of: { Self → ℕ };

    fn number(&self) -> u64
        ensures { result ≡ number_of self.now };
}

impl Numbered for Job {
    ghost number_of = { λ j. j.id };

    fn number(&self) -> u64 {
        self.id
    }
}

impl Numbered for Attempt {
    ghost number_of = { λ a. a.id };

    fn number(&self) -> u64 {
        self.id
    }
}

impl Numbered for BoardRow {
    ghost number_of = { λ r. r.job };

    fn number(&self) -> u64 {
        self.job
    }
}

/// Puts a record in the place of the one with its number, or where it belongs by that. None where memory was refused.
pub(crate) fn put_record<T: Numbered + Drop>(records: &mut Vec<T>, one: T) -> Option<()>
    ensures { OnSome result (records.new.items ≡ put (λ a b. nat_cmp (T.number_of a) (T.number_of b)) one records.old.items) }
{
    let number = one.number();
    take_out(records, number);
    let place = count_before(records.as_slice(), number);
    records.insert(place, one).ok()?;
    Some(())
}

fn take_out<T: Numbered + Drop>(records: &mut Vec<T>, number: u64)
    ensures { records.new.items ≡ filter (λ r. not (number == T.number_of r)) records.old.items }
{
    records.retain(|one| number != one.number());
}

/// How many from the first on have a lesser number.
fn count_before<T: Numbered>(records: &[T], number: u64) -> usize
    ensures len { result ≡ prefix_len (λ r. nat_lt (T.number_of r) number) records.now }
    ensures within { result ≤ length records.now }
{
    records
        .iter()
        .take_while(|one| one.number() < number)
        .count()
}
