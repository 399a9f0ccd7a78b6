//! Runs of rows. In a list in key order, the rows with the same key, or with the same key prefix, are adjacent, and are found by
//! bisection.

ghost use Rattle.std.specs.Prelude.{◌≡◌};
ghost use Rattle.std.specs.List.{filter};
ghost use Rattle.std.specs.List.Sorted.{IsNonDecreasingBy};
ghost use Rattle.std.specs.Ordering.{is_eq, ordering_index};
ghost use Rattle.std.specs.declared.cmp.Ordering.{Ordering};

use std::cmp::Ordering;

/// A row that can be compared with a key, or with a prefix of one.
pub(crate) trait Row<K> {
    ghost compared: { Self → K → Ordering };

    /// Returns how the row compares with the given key: it sorts before the rows with that key, is one of them, or sorts after
    /// them.
    fn compared(&self, key: &K) -> Ordering
        ensures { result ≡ compared self.now key.now };
}

/// Returns the rows with the given key. The rows must be in key order.
pub(crate) fn run_of<'a, K, T: Row<K>>(rows: &'a [T], key: &K) -> &'a [T]
    requires { IsNonDecreasingBy (λ x. ordering_index (T.compared x key.now)) rows.now }
    ensures { result.now ≡ filter (λ x. is_eq (T.compared x key.now)) rows.now }
{
    let before = rows.partition_point(|row| row.compared(key).is_lt());
    let (_, left) = rows.split_at(before);
    let run = left.partition_point(|row| row.compared(key).is_le());
    left.split_at(run).0
}
