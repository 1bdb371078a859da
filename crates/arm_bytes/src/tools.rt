// Refusal 11 of the tools that a call is lent.
ghost use Rattle.std.specs.Prelude.{◌≡◌};
ghost use Rattle.refusals.specs.Number.{number_of};
ghost use Rattle.refusals.specs.Refusal.{chains_of, tools_refusal};

use refusals::refusal::Refusal;
use refusals::tools;
use sheet::reader;

// Sizes that are refused may be empty, so they are read as no chain.
pub fn tools_refusal(sizes: &[u16], tools: &[f64; 32]) -> Result<(), Refusal>
    ensures { number_of result ≡ tools_refusal (chains_of sizes.now) tools.now }
{
    tools::tools_refusal(reader::read(sizes, 0) as usize, tools)
}
