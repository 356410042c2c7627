// The built-in script.
pub(crate) const SCRIPT: &str =
    "Le rideau se l\u{E8}ve : \u{C7}a commence.\nUne \u{153}uvre tr\u{E8}s aim\u{E9}e \u{2014} et d\u{E9}j\u{E0} not\u{E9}e \u{266B}\nab a\n";
