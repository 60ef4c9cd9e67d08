//! The runs of a coded vector: the rows at which they start, and their values in order.
ghost use Rattle.std.specs.Prelude.{◌≡◌, ℕ, ◌<◌, IfSome, IsSome, None, is_some, cond, length};
ghost use Rattle.bit_interleave.specs.Range.{value_at};
ghost use Rattle.run_dictionary.specs.Runs.{RunForm};
ghost use Rattle.segment_core.specs.declared.coded.Coded.TheVariants.{Runs as InRuns};
ghost use Rattle.table_model.specs.Passes.{raised};
ghost use Rattle.fused_kernels.specs.RowRuns.{AreRowRuns};

use crate::meter::Meter;
use run_dictionary::Runs;
use segment_core::{Coded, CodedVector};
use transpose_order::Mask;

/// Writes the values of runs in order.
fn write_run_values(form: &Runs, values: &mut [i64; 1024])
    ensures { (k : ℕ) → k < length form.now.values → value_at values.new k ≡ value_at form.now.values k }
{
    let runs = form.values();
    for run in 0..runs.len() {
        values[run] = runs.get(run);
    }
}

/// Writes the values of the runs of a vector in order, from the first place on, and answers the rows at which a run starts after
/// row 0. None if the vector isn't coded by runs; then the values are as they were. A run of rows that are null or aren't covered
/// can have any value. The meter counts one pass more if it answers.
pub fn vector_runs_into(
    vector: &CodedVector,
    values: &mut [i64; 1024],
    meter: &mut Meter,
) -> Option<Mask>
    ensures runs { IfSome result (λ starts. AreRowRuns vector.now starts values.new) }
    ensures answers { (form : RunForm) → vector.now.coded ≡ InRuns form → IsSome result }
    ensures none { result ≡ None → values.new ≡ values.old }
    ensures pass { meter.new ≡ cond (is_some result) (raised 1 meter.old) meter.old }
{
    match vector.coded() {
        Coded::Runs(form) => {
            meter.add_pass();
            let runs = form.get();
            write_run_values(runs, values);
            Some(*runs.starts())
        }
        Coded::For(_) => None,
        Coded::Delta(_) => None,
        Coded::Dict(_) => None,
    }
}
