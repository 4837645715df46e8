// What holds of every text.
ghost use Rattle.std.specs.Prelude.{◌≡◌, ◌≢◌, ℕ, List};
ghost use Rattle.site_check.specs.declared.finding.Finding.{Finding};
ghost use Rattle.site_check.specs.Findings.{Finds};

use fix_site::one_reading;
use rel_eval::one_plan;
use script_text::one_verdict;

/// A text has one finding, unless memory runs out.
pub fn one_finding()
    ensures { (text : List ℕ) (x y : Finding) → Finds text x → Finds text y
        → x ≢ Finding.Memory → y ≢ Finding.Memory → x ≡ y }
{
    // the laws of the parts, which this one is made of
    one_reading();
    one_plan();
    one_verdict();
}
