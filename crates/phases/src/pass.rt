// What a pass of a phase goes over.
use crate::changes::Changes;
use circuit::circuit::Circuit;
use site_index::SiteIndex;
use switching::Phase;

// A circuit, the faults of a job by their sites, the phase, and the lines that changed in the pass before.
#[derive(Clone, Copy)]
pub(crate) struct Pass<'a> {
    pub(crate) circuit: &'a Circuit,
    pub(crate) index: &'a SiteIndex,
    pub(crate) phase: Phase,
    pub(crate) changes: &'a Changes,
}
