use design_model::Design;
use odd_cuts::Cert;

/// The route of a drawing: the design that sews it, and the certificate of its walks.
#[derive(Drop)]
pub struct Routed {
    pub design: Design,
    pub cert: Cert,
}
