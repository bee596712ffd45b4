//! Laws of sub-bands and resolutions. Each is the contract of a function that does nothing.

ghost use Rattle.jk_wave.specs.Laws.{IsLocalResolution, IsDecided, IsUndone, IsReduced, GrowsLevels, HasEnoughPlanes};
ghost use Rattle.jk_wave.specs.Laws.{HasWidth, BoundsResolutions, IsClimbing, LiesInLevel, LiesApart, LiesOffLow};
ghost use Rattle.jk_wave.specs.Laws.{HasRows, KeepsOthers, StaysLevel};
ghost use Rattle.jk_wave.specs.falling.Intervals.{FallsWithin, FallsInOrder, FallsNone, FallsAll, GivenNone, GivenAll, GivenInOrder, GivenAlone};
ghost use Rattle.jk_wave.specs.climbing.Intervals.{MadeEnough, TakesNoMore, TakesInOrder, TakesWithin, TakesPairs, TakesAll, EndsInOrder};

/// What a resolution shows of a rectangle depends on the sub-bands near it alone.
pub fn resolutions_are_local()
    ensures local { IsLocalResolution }
    ensures decided { IsDecided }
{}

/// Synthesis undoes analysis, of all levels and of the lower ones.
pub fn analysis_undone()
    ensures undone { IsUndone }
    ensures reduced { IsReduced }
{}

/// How much all levels add, forwards.
pub fn levels_growth()
    ensures grows { GrowsLevels }
    ensures planes { HasEnoughPlanes }
    ensures width { HasWidth }
{}

/// How much all levels add, backwards.
pub fn resolutions_bound()
    ensures { BoundsResolutions }
{}

/// Resolutions that are made level by level of what is near a rectangle alone are the resolutions
/// there.
pub fn pieces_climb()
    ensures { IsClimbing }
{}

/// Where the coefficients of the sub-bands lie in the lists of their resolutions.
pub fn levels_hold_bands()
    ensures inside { LiesInLevel }
    ensures apart { LiesApart }
    ensures off_low { LiesOffLow }
    ensures rows { HasRows }
{}

/// What stays of such a list where coefficients are written into it.
pub fn levels_stay()
    ensures others { KeepsOthers }
    ensures level { StaysLevel }
{}

/// How many rows of its coefficients a level takes for so many rows of samples.
pub fn level_taken()
    ensures enough { MadeEnough }
    ensures no_more { TakesNoMore }
    ensures order { TakesInOrder }
    ensures within { TakesWithin }
    ensures pairs { TakesPairs }
{}

/// How many rows of all levels are asked for.
pub fn levels_taken()
    ensures all { TakesAll }
    ensures order { EndsInOrder }
{}

/// How far the coefficients of a level are made of its rows of samples that were given.
pub fn level_fallen()
    ensures within { FallsWithin }
    ensures order { FallsInOrder }
    ensures none { FallsNone }
    ensures all { FallsAll }
{}

/// How far all levels are given rows, where those of the highest were given.
pub fn levels_fallen()
    ensures none { GivenNone }
    ensures all { GivenAll }
    ensures order { GivenInOrder }
    ensures alone { GivenAlone }
{}
