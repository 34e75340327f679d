// Validation, reduction and joining: they open a cluster and change nothing.
ghost use Rattle.std.specs.Prelude.{◌≡◌, List, [], ℕ};
ghost use Rattle.numbers.specs.Codes.{told};
ghost use Rattle.store.specs.declared.Store as declared;
ghost use Rattle.calls.specs.Calls as calls;
ghost use Rattle.calls.specs.Steps.{aes_step};
ghost use Rattle.calls.specs.Answers.{copy_of, ended};
ghost use Rattle.handle.specs.Handles.{decoded};
ghost use Rattle.refusals.specs.Given.{OpenedFrom};

use aes::Tables;
use calls::{Answer, Given};
use handle::Handle;
use numbers::Number;
use refusals::{Opened, bad_mode};

// Validation asked for by itself: the refusal that reduction would give.
pub fn validate(tables: &Tables, opened: &Opened, mode: usize) -> Result<(), Number>
    ensures { (s : declared.Store) (m b : List ℕ) → OpenedFrom opened.now s m b
        → told result ≡ (aes_step (calls.validating mode b) (copy_of s m)).reply.number }
{
    opened.first_refusal(tables, false, bad_mode(mode), false, mode)
}

// Call 8: the handle reduced in the mode named.
pub fn reduce(opened: &Opened, mode: usize) -> Answer
    ensures { (s : declared.Store) (m b : List ℕ) → OpenedFrom opened.now s m b
        → ended s m result [] ≡ aes_step (calls.reducing mode b) (copy_of s m) }
{
    let tables = aes::Tables::new();
    opened.first_refusal(&tables, false, bad_mode(mode), false, mode)?;
    let password = store::primary(opened.cluster, mode);
    let reduced = opened.handle.reduce_with(&tables, password);
    Ok(Given::Handle(reduced.encode()))
}

// Call 11: two handles joined in the mode named. The record is that of the first one's cluster.
pub fn join(opened: &Opened, other: Handle, mode: usize) -> Answer
    ensures { (s : declared.Store) (m a b : List ℕ) → OpenedFrom opened.now s m a → other ≡ decoded b
        → ended s m result [] ≡ aes_step (calls.joining mode a b) (copy_of s m) }
{
    let tables = aes::Tables::new();
    opened.pair_refusal(&tables, other, mode)?;
    let password = store::primary(opened.cluster, mode);
    let joined = opened.handle.join_with(&tables, other, password);
    Ok(Given::Handle(joined.encode()))
}
