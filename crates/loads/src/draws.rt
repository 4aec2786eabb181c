// Draws from a state (RULES 17.2), and what one makes of a code or a field (17.3).
ghost use Rattle.std.specs.Prelude.{◌≡◌, ◌+◌, ◌%◌, ◌≤◌, ◌<◌};
ghost use Rattle.loads.specs.Load.{next, draw, code_from};

// The state goes on.
#[tactic(auto, unfolding(crate::specs::Load::next))]
pub(crate) fn next(state: u32) -> u32
    ensures { result ≡ next state }
{
    state.wrapping_mul(1664525).wrapping_add(1013904223)
}

// The state goes on before a draw.
#[tactic(auto, unfolding(crate::specs::Load::draw, crate::specs::Load::next))]
pub(crate) fn draw(state: u32) -> u32
    ensures { (result ≡ draw state) × (result < 65536) }
{
    let new = next(state);
    new / 65536
}

#[tactic(auto, unfolding(crate::specs::Load::code_from))]
pub(crate) fn code_from(state: u32) -> u32
    ensures { (result ≡ code_from state) × (result ≤ 10) }
{
    1 + draw(state) % 10
}

// One of so many tasks, cards or registers.
pub(crate) fn one_of(state: u32, many: u32) -> u32
    requires { (1 ≤ many) × (many ≤ 32) }
    ensures { (result ≡ draw state % many) × (result < 256) }
{
    draw(state) % many
}

pub(crate) fn function_from(state: u32) -> u32
    ensures { (result ≡ 1 + draw state % 5) × (result < 256) }
{
    1 + draw(state) % 5
}
