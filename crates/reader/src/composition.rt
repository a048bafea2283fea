// What the modules that were read come to.
use tables::table::Tables;

#[derive(Drop)]
pub struct Composition {
    pub(crate) tables: Tables,
    // the domains that had their `spec_domain`, by number: a mark for each domain that there may be
    pub(crate) specified: [bool; 32],
}
