//! Items by their views.
ghost use Rattle.feed_log.specs.Views.{AlikeWhereShownAlike};

/// Items that are shown alike are alike, if numbers that are shown as words are words, names have eight bytes and pages
/// 4,096, and no backup has the number that stands for none.
pub fn law_views()
    ensures { AlikeWhereShownAlike }
{}
