ghost use Rattle.node_tables.specs.Fits.{FitsAsRuled};

/// The law that a record fits after a state exactly where the machine's rules for records say so.
pub fn fits_as_ruled<F>()
    ensures { FitsAsRuled F }
{}
