// What texts say. Each function stands for the theorem that its contract names.
ghost use Rattle.listing.specs.Theorems.{DecimalsRead, NumbersDiffer, ListsDiffer};

// The text of a number without a sign is its digits, with no leading zero, and they say the number.
pub fn decimals_read()
    ensures { DecimalsRead }
{}

// Two numbers have different texts.
pub fn numbers_differ()
    ensures { NumbersDiffer }
{}

// Two lists have different texts.
pub fn lists_differ()
    ensures { ListsDiffer }
{}
