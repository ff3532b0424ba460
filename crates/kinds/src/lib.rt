// The moves by name, as mcmc/moves.rs has them, with the tables of what each starts with and changes. Assumes nothing.
#![tactic(auto)]

ghost use Rattle.std.specs.Prelude.{◌≡◌};
ghost use Rattle.kinds.specs.Table.{row_of};

// All of rove's moves, ported or not, in the Rust's order.
#[derive(Clone, Copy)]
pub enum Move {
    FbdBirthScale,
    FbdDeathScale,
    FbdSamplingScale,
    FbdRhoLogit,
    FbdOriginScale,
    TipAge,
    ClockRateScale,
    NodeHeight,
    SubtreeSlide,
    NarrowExchange,
    WideExchange,
    WilsonBalding,
    RootScale,
    TreeScale,
    BirthDifferenceScale,
    RelativeDeathScale,
    GammaShapeScale,
    ClockSigmaScale,
    BranchRateScale,
    NodeTimeRates,
    RootTimeRates,
    ClockSigmaRates,
    NarrowExchangeRates,
    BirthRateScale,
    MorphologyRateScale,
}

impl Move {
    // The slide's size or a scale's factor to start with, for the moves that have one.
    pub fn initial_tuning(self) -> Option<f64>
        ensures { result ≡ (row_of self).tuning }
    {
        match self {
            Move::SubtreeSlide => Some(1.0),
            Move::FbdBirthScale
            | Move::FbdDeathScale
            | Move::FbdSamplingScale
            | Move::FbdRhoLogit
            | Move::FbdOriginScale
            | Move::ClockRateScale
            | Move::RootScale
            | Move::TreeScale
            | Move::BirthDifferenceScale
            | Move::RelativeDeathScale
            | Move::RootTimeRates
            | Move::BirthRateScale
            | Move::MorphologyRateScale => Some(0.75),
            Move::GammaShapeScale
            | Move::ClockSigmaScale
            | Move::BranchRateScale
            | Move::ClockSigmaRates => Some(0.5),
            _ => None,
        }
    }

    // Whether it changes the fossilized birth–death process.
    pub fn changes_fbd(self) -> bool
        ensures { result ≡ (row_of self).fbd }
    {
        matches!(
            self,
            Move::FbdBirthScale
                | Move::FbdDeathScale
                | Move::FbdSamplingScale
                | Move::FbdRhoLogit
                | Move::FbdOriginScale
        )
    }

    // Whether it changes the tree, its heights or its shape.
    pub fn changes_tree(self) -> bool
        ensures { result ≡ (row_of self).tree }
    {
        matches!(
            self,
            Move::TipAge
                | Move::NodeHeight
                | Move::SubtreeSlide
                | Move::NarrowExchange
                | Move::WideExchange
                | Move::WilsonBalding
                | Move::RootScale
                | Move::TreeScale
                | Move::NodeTimeRates
                | Move::RootTimeRates
                | Move::NarrowExchangeRates
        )
    }

    // Whether it changes the tree's shape.
    pub fn changes_topology(self) -> bool
        ensures { result ≡ (row_of self).topology }
    {
        matches!(
            self,
            Move::SubtreeSlide
                | Move::NarrowExchange
                | Move::WideExchange
                | Move::WilsonBalding
                | Move::NarrowExchangeRates
        )
    }
}
