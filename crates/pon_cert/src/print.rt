// Printing of certificates as texts.
ghost use Rattle.std.specs.Prelude.{◌≡◌, ◌≤◌, ◌<◌, ◌++◌, ◌∷◌, [], IsOk, IfOk, length, decimal, string_bytes};
ghost use Rattle.pon_cert.specs.Spelling.{level_text, saturated_names, names_text, class_text, cert_text};

use crate::cert::{ClassCert, Level, MapCert};
use crate::problem::MAX_ITEMS;
use pon_units::AllocId;
use std::alloc::{AllocError, Global};

impl MapCert {
    /// Prints the certificate as `na <level> <set> be <level> <set>`, for classes with these Alloc-IDs in map order. A
    /// level is `all` or a fraction as it is written, a set the saturated Alloc-IDs, joined by commas, or `-`. Each
    /// class must have as many Alloc-IDs as items, at most 512.
    ///
    /// # Errors
    ///
    /// `AllocError` if memory is refused.
    pub fn to_text(
        &self,
        alloc: Global,
        na: &[AllocId],
        be: &[AllocId],
    ) -> Result<String, AllocError>
        requires non_assured { length self.now.na.saturated ≡ length na.now }
        requires best_effort { length self.now.be.saturated ≡ length be.now }
        requires non_assured_count { length na.now ≤ MAX_ITEMS }
        requires best_effort_count { length be.now ≤ MAX_ITEMS }
        ensures { IfOk result (λ text. string_bytes text ≡ cert_text na.now be.now self.now) }
    {
        let na = class_text(alloc, &self.na, na)?;
        let be = class_text(alloc, &self.be, be)?;
        format!(in alloc; "na {na} be {be}")
    }
}

fn class_text(alloc: Global, class: &ClassCert, names: &[AllocId]) -> Result<String, AllocError>
    requires { length class.now.saturated ≡ length names.now }
    ensures { IfOk result (λ text. string_bytes text ≡ class_text names.now class.now) }
{
    let level = level_text(alloc, &class.level)?;
    let set = set_text(alloc, names, class.saturated.as_slice())?;
    format!(in alloc; "{level} {set}")
}

fn level_text(alloc: Global, level: &Level) -> Result<String, AllocError>
    ensures { IfOk result (λ text. string_bytes text ≡ level_text level.now) }
{
    match level {
        Level::All => format!(in alloc; "all"),
        Level::At(share) => fraction_text(alloc, share.num(), share.den()),
    }
}

fn fraction_text(alloc: Global, num: u64, den: u64) -> Result<String, AllocError>
    ensures { IfOk result (λ text. string_bytes text ≡ decimal num ++ 47 ∷ decimal den) }
{
    format!(in alloc; "{num}/{den}")
}

// Prints the names of the saturated items.
fn set_text(alloc: Global, names: &[AllocId], saturated: &[bool]) -> Result<String, AllocError>
    requires { length saturated.now ≡ length names.now }
    ensures { IfOk result (λ text. string_bytes text
        ≡ names_text (saturated_names names.now saturated.now)) }
{
    let mut text = String::new(alloc);
    for (i, name) in names.iter().enumerate() {
        if saturated[i] {
            add_name(alloc, &mut text, *name)?;
        }
    }
    if text.is_empty() {
        text.push('-')?;
    }
    Ok(text)
}

// Appends a name, after a comma if it is not the first.
fn add_name(alloc: Global, text: &mut String, name: AllocId) -> Result<(), AllocError>
    ensures first { IsOk result → string_bytes text.old ≡ []
        → string_bytes text.new ≡ decimal name }
    ensures later { IsOk result → 0 < length (string_bytes text.old)
        → string_bytes text.new ≡ string_bytes text.old ++ 44 ∷ decimal name }
    ensures some { IsOk result → 0 < length (string_bytes text.new) }
{
    if !text.is_empty() {
        text.push(',')?;
    }
    let name = name_text(alloc, name)?;
    text.push_str(&name)
}

fn name_text(alloc: Global, name: AllocId) -> Result<String, AllocError>
    ensures value { IfOk result (λ text. string_bytes text ≡ decimal name) }
    ensures some { IfOk result (λ text. 0 < length (string_bytes text)) }
{
    let number = name.get();
    format!(in alloc; "{number}")
}
