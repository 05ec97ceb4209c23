//! Traces as values.
use crate::ModelName;
use dps_branch::Side;
use dps_process::Label;
use std::marker::Model;

/// A side and the labels that it shows. The model is the one under which it shows them; a trace of format 1 has none.
#[derive(Drop)]
pub struct Trace {
    pub model: Option<ModelName>,
    pub side: Side,
    pub labels: Vec<Label>,
}

impl Model for Trace {
    ghost use Rattle.std.specs.Prelude.{map};
    ghost use Rattle.dps_process.specs.Labels.{label_of};
    ghost use Rattle.dps_trace.specs.Traces.{Trace};
    ghost use Rattle.dps_trace.specs.Stored.{trace_code};

    ghost Value = { Trace };

    ghost coded = { trace_code };

    ghost view = { λ a. record { model = a.model; side = a.side; labels = map label_of a.labels.items } };
}
