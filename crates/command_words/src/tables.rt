// Tables of switches.
ghost use Rattle.std.specs.Prelude.{◌≡◌, IfOk, map};
ghost use Rattle.command_words.specs.Tables.{switch_by, table_of, table_with_components};

use mh_base::{List, Text};
use mh_words::{Kind, Switch, SwitchList, SwitchTable};
use std::alloc::{AllocError, Global};

/// The switches of these names and kinds.
fn switch_list(alloc: Global, rows: &[(&str, Kind)]) -> Result<SwitchList, AllocError>
    ensures { IfOk result (λ switches. switches ≡ map switch_by rows.now) }
{
    let mut switches = List::new(alloc);
    for row in rows {
        let name = Text::from_str(alloc, row.0)?;
        switches.push(Switch { name, kind: row.1 })?;
    }
    Ok(switches)
}

/// The table of these switches, where no word names a component.
pub fn switch_table(alloc: Global, rows: &[(&str, Kind)]) -> Result<SwitchTable, AllocError>
    ensures { IfOk result (λ table. table ≡ table_of (map switch_by rows.now)) }
{
    Ok(SwitchTable {
        switches: switch_list(alloc, rows)?,
        components: false,
    })
}

/// The table of these switches, where a word with two hyphens names a component.
pub fn component_table(alloc: Global, rows: &[(&str, Kind)]) -> Result<SwitchTable, AllocError>
    ensures { IfOk result (λ table. table ≡ table_with_components (map switch_by rows.now)) }
{
    Ok(SwitchTable {
        switches: switch_list(alloc, rows)?,
        components: true,
    })
}
