ghost use Rattle.descriptor_table.specs.Laws.{TableFollows};

use file_descriptions::changes_keep_sound;
use sequential_object::{decided_so, names_do_not_matter};

/// Laws of the table. The first table shows the first state. What each table decides of a call was
/// looked up, and is what the sequential object decides in each state that the table shows; and what
/// was looked up is there (`follows`). It does nothing: the contract is the law.
pub fn table_follows_step()
    ensures follows { TableFollows }
{
    changes_keep_sound();
    names_do_not_matter();
    decided_so();
}
