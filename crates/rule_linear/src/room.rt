//! The room in which coefficients are summed: one at the number of each unit.

ghost use Rattle.std.specs.Prelude.{◌≡◌, ◌≢◌, ◌<◌, ℕ, length};
ghost use Rattle.rule_linear.specs.Coefficients.{coefficient_at};

use vcc_rules::rule::Summand;

/// The coefficient of the unit.
pub fn coefficient(room: &[Summand], t: u32) -> i128
    requires { t < length room.now }
    ensures { result ≡ coefficient_at room.now t }
{
    room[t as usize].coefficient
}

/// Gives the unit this coefficient.
pub fn set_coefficient(room: &mut [Summand], t: u32, number: i128)
    requires { t < length room.old }
    ensures here { coefficient_at room.new t ≡ number }
    ensures elsewhere { (u : ℕ) → u ≢ t → coefficient_at room.new u ≡ coefficient_at room.old u }
{
    room[t as usize].coefficient = number;
}
