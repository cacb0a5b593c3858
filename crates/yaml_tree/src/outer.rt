//! The brackets around the innermost one.

ghost use Rattle.std.specs.Prelude.{◌≡◌, IfOk};
ghost use Rattle.yaml_tree.specs.Outer.{frame_of};

use crate::flow::Frame;
use std::alloc::{AllocError, Global};
use std::marker::Model;

/// What is kept of a bracket: of one that holds nothing yet its kind alone.
#[derive(Drop)]
pub enum Shelved {
    Fresh { is_map: bool },
    Held(Box<Frame>),
}

/// A bracket around the innermost one, in little memory. Clauses see its frame.
#[derive(Drop)]
pub struct Outer {
    held: Shelved,
}

impl Model for Outer {
    ghost use Rattle.std.specs.Coded.{codes};
    ghost use Rattle.yaml_tree.specs.contracts.node.NodeKind as e;
    ghost use Rattle.yaml_tree.specs.declared.flow.Frame.{Frame};
    ghost use Rattle.yaml_tree.specs.Outer.{frame_of};

    ghost Value = { Frame };

    ghost coded = { Prim.hlevel (codes, e.the_row.coded) };

    ghost view = { λ o. frame_of o.held };
}

impl Outer {
    pub fn of(alloc: Global, frame: Frame) -> Result<Outer, AllocError>
        ensures { IfOk result (λ outer. outer ≡ frame) }
    {
        if frame.is_fresh() {
            let is_map = frame.is_map;
            return Ok(Outer {
                held: Shelved::Fresh { is_map },
            });
        }
        let held = Box::new(alloc, frame)?;
        Ok(Outer {
            held: Shelved::Held(held),
        })
    }

    pub fn into_frame(self, alloc: Global) -> Frame
        ensures { result ≡ self }
    {
        match self.held {
            Shelved::Fresh { is_map } => Frame::new(alloc, is_map),
            Shelved::Held(frame) => Box::into_inner(frame),
        }
    }
}
