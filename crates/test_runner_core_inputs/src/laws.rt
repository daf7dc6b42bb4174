//! What holds of every reading of inputs. Each function does nothing, and its contract is the law.
ghost use Rattle.test_runner_core_inputs.specs.Laws.{AcceptedShape, FirstFault};

/// Bytes are read exactly if they have the shape of inputs, and as those.
pub fn accepted_shape()
    ensures { AcceptedShape }
{}

/// Of all that is wrong with bytes, in the written order, a refusal is the first.
pub fn first_fault()
    ensures { FirstFault }
{}
