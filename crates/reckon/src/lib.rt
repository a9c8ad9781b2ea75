// What CASA reckons: the two steps of the target, and which frame a fault takes.
#![tactic(auto)]

ghost use Rattle.std.specs.Prelude.{◌≡◌, ◌+◌, ◌*◌, ◌≤◌};
ghost use Rattle.order.specs.Places.{places};
ghost use Rattle.model.specs.Numbers.{unit};
ghost use Rattle.model.specs.Target.{up, down, rounded, adjust, costs, most_cost};
ghost use Rattle.model.specs.Request.{chosen_by, ChoiceIn};

use costs::Costs;
use model::Choice;

// A step of `above` over `below` of a page, in units: to the nearest, a half upwards.
fn step_units(above: u64, below: u64) -> u64
    requires { (above ≤ most_cost * places) × (1 ≤ below) × (below ≤ 2 * most_cost * places) }
    ensures { result ≡ rounded (unit * above) below }
{
    (2 * (65536 * above) + below) / (2 * below)
}

// Up by a read hit in C, with `cn` clean and `dn` dirty frames.
pub fn raise(frames: u64, target: u64, cost: Costs, cn: u64, dn: u64) -> u64
    requires { (frames ≤ places) × (target ≤ frames * unit) × (1 ≤ cn) × (cn ≤ places) × (dn ≤ places) }
    ensures { result ≡ adjust frames target (up (costs cost.read cost.write) cn dn) }
{
    let step = step_units(cost.read * dn, (cost.read + cost.write) * cn);
    let sum = target + step;
    let top = frames * 65536;
    sum.min(top)
}

// Down by a write hit in D.
pub fn lower(frames: u64, target: u64, cost: Costs, cn: u64, dn: u64) -> u64
    requires { (cn ≤ places) × (1 ≤ dn) × (dn ≤ places) }
    ensures { result ≡ adjust frames target (down (costs cost.read cost.write) cn dn) }
{
    let step = step_units(cost.write * cn, (cost.read + cost.write) * dn);
    target.saturating_sub(step)
}

// Which frame is taken, by the lengths and the target: nothing else in the code knows. The tests stand as the rule has them, one behind the other.
pub fn choose(en: usize, cn: usize, dn: usize, target: u64) -> Choice
    requires { (1 ≤ en + (cn + dn)) × (en + (cn + dn) ≤ places) }
    ensures { (result ≡ chosen_by en cn dn target) × ChoiceIn en cn dn result }
{
    if 0 < en {
        let last = en - 1;
        return Choice::OfEmpty(last);
    }
    let clean = (cn as u64) * 65536;
    if target < clean {
        let last = cn - 1;
        return Choice::OfClean(last);
    }
    if 0 < dn {
        let last = dn - 1;
        return Choice::OfDirty(last);
    }
    let last = cn - 1;
    Choice::OfClean(last)
}
