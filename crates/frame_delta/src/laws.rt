//! The laws of frame of reference and delta coding.
ghost use Rattle.frame_delta.specs.Extremes.{LeastAmongIsLeast, GreatestAmongIsGreatest};
ghost use Rattle.frame_delta.specs.Frame.{LeastFrameGivesBack, LeastFrameIsAForm, LeastFrameIsNarrowest};
ghost use Rattle.frame_delta.specs.Delta.{DeltasAddUp, SumsGiveTheirRows, LeastDeltaGivesBack, LeastDeltaIsAForm, LeastDeltaIsNarrowest};

/// The law that the least of some numbers is one of them and above none, and that no other number is.
pub fn least_among_is_least()
    ensures { LeastAmongIsLeast }
{}

/// The law that the greatest of some numbers is one of them and below none, and that no other number is.
pub fn greatest_among_is_greatest()
    ensures { GreatestAmongIsGreatest }
{}

/// The law that the least frame of some values decodes to them.
pub fn least_frame_gives_back()
    ensures { LeastFrameGivesBack }
{}

/// The law that the least frame of values in the range of a lane width is a frame.
pub fn least_frame_is_a_form()
    ensures { LeastFrameIsAForm }
{}

/// The law that of all frames whose reference is above none of their values, none has a smaller width than the least form.
pub fn least_frame_is_narrowest()
    ensures { LeastFrameIsNarrowest }
{}

/// The law that the value at a step is the one before plus the step's delta, and at step 0 the lane's base plus it.
pub fn deltas_add_up()
    ensures { DeltasAddUp }
{}

/// The law that the sums of a piece, modulo two to the power of the lane width and read as signed, are its rows' values.
pub fn sums_give_their_rows()
    ensures { SumsGiveTheirRows }
{}

/// The law that the least deltas of some values decode to them.
pub fn least_delta_gives_back()
    ensures { LeastDeltaGivesBack }
{}

/// The law that the least form by deltas of some values is a form by deltas.
pub fn least_delta_is_a_form()
    ensures { LeastDeltaIsAForm }
{}

/// The law that of all deltas whose least delta is above no later difference, none has a smaller width than the least form.
pub fn least_delta_is_narrowest()
    ensures { LeastDeltaIsNarrowest }
{}
