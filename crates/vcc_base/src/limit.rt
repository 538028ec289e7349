//! The limits.

ghost use Rattle.std.specs.Prelude.{◌≡◌};
ghost use Rattle.vcc_base.specs.Limits.{name_of, number_of};

/// A counted quantity that has a bound.
#[derive(Clone, Copy, Debug, PartialEq, Eq)]
pub enum Limit {
    SourceBytes,
    ScheduleBytes,
    Tokens,
    Depth,
    Conditions,
    CertBytes,
    Terms,
}

impl Limit {
    /// How much is allowed: one more is refused.
    pub fn number(self) -> u64
        ensures { result ≡ number_of self }
    {
        match self {
            Limit::SourceBytes | Limit::ScheduleBytes | Limit::Terms => 1_048_576,
            Limit::Tokens => 262_144,
            Limit::Depth => 200,
            Limit::Conditions => 20_000,
            Limit::CertBytes => 67_108_864,
        }
    }

    /// The name by which a refusal calls the limit.
    pub fn name(self) -> &'static str
        ensures { result.now ≡ name_of self }
    {
        match self {
            Limit::SourceBytes => "SourceBytes",
            Limit::ScheduleBytes => "ScheduleBytes",
            Limit::Tokens => "Tokens",
            Limit::Depth => "Depth",
            Limit::Conditions => "Conditions",
            Limit::CertBytes => "CertBytes",
            Limit::Terms => "Terms",
        }
    }
}
