//! What weights and alphas are counted in.

/// The weight of a row whose span takes less than a thousandth of the domain. Weights are thousandths of the domain.
pub const FULL_WEIGHT: u64 = 1000;

/// The alpha at which gains no longer count. Alphas are percentages.
pub const FULL_ALPHA: u8 = 100;
