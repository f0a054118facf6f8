//! The chart of two indexes together, or of an index and later rows, drawn path by path.
//!
//! `union` and `extended` are exact: they answer the chart that has the rows of both
//! (`specs/Union.antt`), or the first cause for which there is none (`specs/MergeFault.antt`,
//! `specs/Extension.antt`). Their reads are those that `specs/Cost.antt` counts.
#![tactic(auto)]

mod comparing;
mod extending;
mod fault;
mod index_paths;
mod merging;

pub use extending::extended;
pub use fault::MergeFault;
pub use merging::union;
