// What the definitions of the formats say, beside what the code meets.
ghost use Rattle.work_check.specs.Sarif.{SarifIsOneValue};

/// A law. What is written as SARIF is the compact text of one JSON value, with a result for each diagnostic of the files that are asked for, by
/// path, and a line feed.
pub fn sarif_is_one_value()
    ensures { SarifIsOneValue }
{}
