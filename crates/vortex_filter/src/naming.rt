//! The columns that a filter names.

ghost use Rattle.std.specs.Prelude.{◌≡◌, slice_set, true};
ghost use Rattle.vortex_filter.specs.Named.{AreMarked};
ghost use Rattle.vortex_filter.specs.Words.{formula};

use crate::filter::Filter;

impl Filter {
    /// Sets the flag of each column that the filter names, if the flags reach to it.
    #[tactic(auto, using(crate::proofs::Steps::shown))]
    pub fn mark_columns(&self, flags: &mut [bool])
        ensures { AreMarked (formula self.now) flags.old flags.new }
    {
        match self {
            Filter::Constant(_) => {}
            Filter::Compare { column, .. } => mark_column(*column, flags),
            Filter::IsNull { column } => mark_column(*column, flags),
            Filter::In { column, .. } => mark_column(*column, flags),
            Filter::Between { column, .. } => mark_column(*column, flags),
            Filter::StartsWith { column, .. } => mark_column(*column, flags),
            Filter::Like { column, .. } => mark_column(*column, flags),
            Filter::And(left, right) => {
                left.mark_columns(flags);
                right.mark_columns(flags);
            }
            Filter::Or(left, right) => {
                left.mark_columns(flags);
                right.mark_columns(flags);
            }
            Filter::Not(inner) => inner.mark_columns(flags),
        }
    }
}

/// Sets the flag of a column, if the flags reach to it.
fn mark_column(column: usize, flags: &mut [bool])
    ensures { flags.new ≡ slice_set flags.old column true }
{
    if column < flags.len() {
        flags[column] = true;
    }
}
