// The functions of crate rove_parameters, exported to hosts in C and Rust: each calls the function of its name there, and promises what that promises. include/rove.h
// declares them. Assumes nothing.
#![tactic(auto)]

ghost use Rattle.std.specs.Prelude.{◌≡◌};
ghost use Rattle.record.specs.Record.{written};
ghost use Rattle.rove_parameters.specs.Exports.{scale_exported, clock_rate_exported, birth_difference_exported, birth_rate_exported, relative_death_exported, clock_sigma_exported, lent, branch_rate_scale_exported, fbd_exported, clock_exported, branch_rate_exported, set_sigma_exported, set_rate_exported, priors_exported, yule_exported, table_exported, initialize_exported, tip_age_exported, monophyly_exported, age_exported};

#[unsafe(no_mangle)]
pub extern "C" fn rove_scale(words: &mut [u64]) -> u64
    ensures { written result words.new ≡ scale_exported words.old }
{
    rove_parameters::rove_scale(words)
}

#[unsafe(no_mangle)]
pub extern "C" fn rove_clock_rate_scale(words: &mut [u64]) -> u64
    ensures { written result words.new ≡ clock_rate_exported words.old }
{
    rove_parameters::rove_clock_rate_scale(words)
}

#[unsafe(no_mangle)]
pub extern "C" fn rove_birth_difference_scale(words: &mut [u64]) -> u64
    ensures { written result words.new ≡ birth_difference_exported words.old }
{
    rove_parameters::rove_birth_difference_scale(words)
}

#[unsafe(no_mangle)]
pub extern "C" fn rove_birth_rate_scale(words: &mut [u64]) -> u64
    ensures { written result words.new ≡ birth_rate_exported words.old }
{
    rove_parameters::rove_birth_rate_scale(words)
}

#[unsafe(no_mangle)]
pub extern "C" fn rove_relative_death_scale(words: &mut [u64]) -> u64
    ensures { written result words.new ≡ relative_death_exported words.old }
{
    rove_parameters::rove_relative_death_scale(words)
}

#[unsafe(no_mangle)]
pub extern "C" fn rove_clock_sigma_scale(words: &mut [u64], rates: &[f64]) -> u64
    ensures { written result words.new ≡ clock_sigma_exported rates.now words.old }
{
    rove_parameters::rove_clock_sigma_scale(words, rates)
}

#[unsafe(no_mangle)]
pub extern "C" fn rove_branch_rate_scale(words: &mut [u64], rates: &mut [f64]) -> u64
    ensures { lent (written result words.new) rates.new ≡ branch_rate_scale_exported rates.old words.old }
{
    rove_parameters::rove_branch_rate_scale(words, rates)
}

#[unsafe(no_mangle)]
pub extern "C" fn rove_fbd_scale(words: &mut [u64]) -> u64
    ensures { written result words.new ≡ fbd_exported words.old }
{
    rove_parameters::rove_fbd_scale(words)
}

#[unsafe(no_mangle)]
pub extern "C" fn rove_clock(words: &mut [u64], rates: &[f64]) -> u64
    ensures { written result words.new ≡ clock_exported rates.now words.old }
{
    rove_parameters::rove_clock(words, rates)
}

#[unsafe(no_mangle)]
pub extern "C" fn rove_branch_rate(words: &mut [u64], rates: &[f64]) -> u64
    ensures { written result words.new ≡ branch_rate_exported rates.now words.old }
{
    rove_parameters::rove_branch_rate(words, rates)
}

#[unsafe(no_mangle)]
pub extern "C" fn rove_set_sigma(words: &mut [u64], rates: &[f64]) -> u64
    ensures { written result words.new ≡ set_sigma_exported rates.now words.old }
{
    rove_parameters::rove_set_sigma(words, rates)
}

#[unsafe(no_mangle)]
pub extern "C" fn rove_set_rate(words: &mut [u64], rates: &mut [f64]) -> u64
    ensures { lent (written result words.new) rates.new ≡ set_rate_exported rates.old words.old }
{
    rove_parameters::rove_set_rate(words, rates)
}

#[unsafe(no_mangle)]
pub extern "C" fn rove_validate_priors(words: &mut [u64]) -> u64
    ensures { written result words.new ≡ priors_exported words.old }
{
    rove_parameters::rove_validate_priors(words)
}

#[unsafe(no_mangle)]
pub extern "C" fn rove_yule_log_density(
    words: &mut [u64],
    pairs: &[u16],
    parents: &[u16],
    heights: &[f64],
) -> u64
    ensures { written result words.new ≡ yule_exported pairs.now parents.now heights.now words.old }
{
    rove_parameters::rove_yule_log_density(words, pairs, parents, heights)
}

#[unsafe(no_mangle)]
pub extern "C" fn rove_validate_ages(words: &mut [u64], minima: &[f64], maxima: &[f64]) -> u64
    ensures { written result words.new ≡ table_exported minima.now maxima.now words.old }
{
    rove_parameters::rove_validate_ages(words, minima, maxima)
}

#[unsafe(no_mangle)]
pub extern "C" fn rove_initialize(
    words: &mut [u64],
    pairs: &[u16],
    parents: &[u16],
    heights: &mut [f64],
    minima: &[f64],
    maxima: &[f64],
) -> u64
    ensures { lent (written result words.new) heights.new ≡ initialize_exported pairs.now parents.now heights.old minima.now maxima.now words.old }
{
    rove_parameters::rove_initialize(words, pairs, parents, heights, minima, maxima)
}

#[unsafe(no_mangle)]
pub extern "C" fn rove_propose_age(
    words: &mut [u64],
    pairs: &[u16],
    parents: &[u16],
    heights: &mut [f64],
    minima: &[f64],
    maxima: &[f64],
) -> u64
    ensures { lent (written result words.new) heights.new ≡ tip_age_exported pairs.now parents.now heights.old minima.now maxima.now words.old }
{
    rove_parameters::rove_propose_age(words, pairs, parents, heights, minima, maxima)
}

#[unsafe(no_mangle)]
pub extern "C" fn rove_is_monophyletic(
    words: &mut [u64],
    pairs: &[u16],
    parents: &[u16],
    heights: &[f64],
    members: &[u8],
) -> u64
    ensures { written result words.new ≡ monophyly_exported pairs.now parents.now heights.now members.now words.old }
{
    rove_parameters::rove_is_monophyletic(words, pairs, parents, heights, members)
}

#[unsafe(no_mangle)]
pub extern "C" fn rove_clade_age(
    words: &mut [u64],
    pairs: &[u16],
    parents: &[u16],
    heights: &[f64],
    members: &[u8],
) -> u64
    ensures { written result words.new ≡ age_exported pairs.now parents.now heights.now members.now words.old }
{
    rove_parameters::rove_clade_age(words, pairs, parents, heights, members)
}
