ghost use Rattle.class_model.specs.Laws.{OneReport};

use type_terms::orders_are_total;

/// An assembly has at most one report. It does nothing when it is called.
pub fn one_report()
    ensures { OneReport }
{
    orders_are_total();
}
