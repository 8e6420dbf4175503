// The margin of a step: by how much a table passes or fails the test of policies 1, 2 and 5. Contracts cite `specs/Margin`.
#![tactic(auto)]

ghost use Rattle.std.specs.Prelude.{◌≡◌};
ghost use Rattle.kinds.specs.Answer.{handed_margin};
ghost use Rattle.margin.specs.Margin.{margin_handed};

use kinds::{Refusal, Settings, Table};
use policy::Test;
use springs::Springs;

// The right side of the test minus the left at any step, or the refusal.
pub fn margin_at(table: Table, settings: Settings, step: u32) -> Result<i64, Refusal>
    ensures { handed_margin result ≡ margin_handed settings table.rows table.n step }
{
    let mut springs = Springs::new(settings.notch);
    admission::admit(&table, settings, false, table.n, &mut springs)?;
    springs.load(settings, step);
    let asked = settings.policy;
    let test = Test {
        policy: asked.meant(),
        m: settings.m,
    };
    Ok(test.margin(&springs))
}
