//! A law of images. The function's contract holds at all values, and its body does nothing.
ghost use Rattle.lst_log.specs.Journals.{HasOneList, DamageIsNone};

/// An image stands for one list of commits at most, and for none where a record in it isn't in the format.
pub fn image_has_one_history()
    ensures one { HasOneList }
    ensures damaged { DamageIsNone }
{}
