// Which texts are names of files and numbers.
ghost use Rattle.std.specs.Prelude.{◌≡◌, ◌≤◌, ◌+◌, ◌*◌, ◌&&◌, IfSome, IsNone, false, option_map, true};
ghost use Rattle.std.specs.Str.Parse.{digits_value};
ghost use Rattle.command_line.specs.Words.{are_decimals, are_file_names, are_five_names, are_four_names, are_two_names, decimals_value, hundredths, is_file_name, is_gap, is_number, is_percentage, is_start_name};

use crate::requests::LARGEST_GAP;
use whole_numbers::read_whole;

// Whether a text is the name of a file.
pub(crate) fn is_file_name(text: &str) -> bool
    ensures { result ≡ is_file_name text.now }
{
    match text.as_bytes().first() {
        Some(byte) => *byte != b'-',
        None => false,
    }
}

// Whether three texts are names of files, no two of them the same.
pub(crate) fn are_file_names(model: &str, plan: &str, certificate: &str) -> bool
    ensures { result ≡ are_file_names model.now plan.now certificate.now }
{
    is_file_name(model)
        && is_file_name(plan)
        && is_file_name(certificate)
        && model != plan
        && model != certificate
        && plan != certificate
}

// Whether four texts are names of files, no two of them the same.
pub(crate) fn are_four_names(model: &str, plan: &str, page: &str, certificate: &str) -> bool
    ensures { result ≡ are_four_names model.now plan.now page.now certificate.now }
{
    are_file_names(model, plan, page)
        && are_file_names(model, plan, certificate)
        && are_two_names(page, certificate)
}

// Whether five texts are names of files, no two of them the same.
pub(crate) fn are_five_names(
    model: &str,
    plan: &str,
    next_model: &str,
    next_plan: &str,
    certificate: &str,
) -> bool
    ensures { result ≡ are_five_names model.now plan.now next_model.now next_plan.now
        certificate.now }
{
    are_file_names(model, plan, next_model)
        && are_file_names(model, next_plan, certificate)
        && are_file_names(plan, next_plan, certificate)
        && are_file_names(next_model, next_plan, certificate)
}

// Whether two texts are names of files, which aren't the same.
pub(crate) fn are_two_names(model: &str, other: &str) -> bool
    ensures { result ≡ are_two_names model.now other.now }
{
    is_file_name(model) && is_file_name(other) && model != other
}

// The number that a text is, if it is one from the least to the most.
pub(crate) fn read_number(text: &str, least: u64, most: u64) -> Option<u64>
    ensures some { IfSome result (λ n. (is_number least most text.now ≡ true)
        × (n ≡ digits_value 10 text.now)) }
    ensures most { IfSome result (λ n. n ≤ most) }
    ensures none { IsNone result → is_number least most text.now ≡ false }
{
    match read_whole(text.as_bytes(), most as u128) {
        Ok(number) if number >= least as u128 => Some(number as u64),
        _ => None,
    }
}

// Whether a file to start from, if there is one, is neither the model file nor the certificate file.
pub(crate) fn is_start_name(model: &str, certificate: &str, start: Option<&str>) -> bool
    ensures { result ≡ is_start_name model.now certificate.now
        (option_map (λ s. s.now) start.entry) }
{
    match start {
        Some(start) => are_file_names(model, start, certificate),
        None => true,
    }
}

// The hundredths that one digit or two are behind a point.
fn read_decimals(text: &[u8]) -> Option<u32>
    ensures some { IfSome result (λ n. (are_decimals text.now ≡ true)
        × (n ≡ decimals_value text.now)) }
    ensures most { IfSome result (λ n. n ≤ 99) }
    ensures none { IsNone result → are_decimals text.now ≡ false }
{
    match text {
        [a] if a.is_ascii_digit() => Some(10 * u32::from(*a - b'0')),
        [a, b] if a.is_ascii_digit() && b.is_ascii_digit() => {
            Some(10 * u32::from(*a - b'0') + u32::from(*b - b'0'))
        }
        _ => None,
    }
}

// The hundredths of a percent that a whole number and what stands behind its point give.
fn read_parts(whole: &str, decimals: &str) -> Option<u32>
    ensures some { IfSome result (λ n. (is_number 0 100 whole.now ≡ true)
        × (are_decimals decimals.now ≡ true)
        × (n ≡ 100 * digits_value 10 whole.now + decimals_value decimals.now)) }
    ensures none { IsNone result → (is_number 0 100 whole.now && are_decimals decimals.now)
        ≡ false }
{
    let percents = read_number(whole, 0, 100)? as u32;
    let rest = read_decimals(decimals.as_bytes())?;
    Some(100 * percents + rest)
}

// The hundredths of a percent that a text with a point or without gives.
fn read_hundredths(text: &str) -> Option<u32>
    ensures some { IfSome result (λ n. (is_percentage text.now ≡ true)
        × (n ≡ hundredths text.now)) }
    ensures none { IsNone result → is_percentage text.now ≡ false }
{
    match text.split_once('.') {
        Some((whole, decimals)) => read_parts(whole, decimals),
        None => Some(100 * (read_number(text, 0, 100)? as u32)),
    }
}

// The hundredths of a percent that a text gives, if it is a percentage from 0 to 100 with at most two decimals.
pub(crate) fn read_gap(text: &str) -> Option<u32>
    ensures some { IfSome result (λ n. (is_gap text.now ≡ true) × (n ≡ hundredths text.now)) }
    ensures none { IsNone result → is_gap text.now ≡ false }
{
    match read_hundredths(text) {
        Some(hundredths) if hundredths <= LARGEST_GAP => Some(hundredths),
        _ => None,
    }
}
