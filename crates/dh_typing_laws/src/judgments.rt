//! Laws of what typing comes to: what more units, heights and depth change, and that it comes to one judgment. They hold for
//! every inference over the expressions that are named.
ghost use Rattle.dh_syntax.specs.Expressions.Tree.{Term};
ghost use Rattle.dh_syntax.specs.Names.Nameless.{Core, Bare};
ghost use Rattle.dh_syntax.specs.Normalising.Named.{names};
ghost use Rattle.dh_syntax.specs.Normalising.NamelessRuns.{cores, bares};
ghost use Rattle.dh_syntax.specs.Typing.NamedTyping.{scopes};
ghost use Rattle.dh_syntax.specs.Typing.NamelessTyping.{core_scopes, bare_scopes};
ghost use Rattle.dh_typing_laws.specs.Judgments.{MoreUnits, MoreHeights, OneJudgment, MoreDepth, OneType, OneRefusal, TypeOrRefusal};

/// More units change no judgment but that the units were too few.
pub fn judged_with_more_units()
    ensures named { MoreUnits Term }
    ensures with_names { MoreUnits Core }
    ensures without_names { MoreUnits Bare }
{}

/// More heights and a greater purse for what is typed aside change no judgment but that these or the depth were too few.
pub fn judged_with_more_heights()
    ensures named { MoreHeights Term }
    ensures with_names { MoreHeights Core }
    ensures without_names { MoreHeights Bare }
{}

/// With so many units, heights and a purse that are enough give one judgment.
pub fn one_judgment()
    ensures named { OneJudgment Term }
    ensures with_names { OneJudgment Core }
    ensures without_names { OneJudgment Bare }
{}

/// More depth changes no judgment but that the depth was too little.
pub fn judged_with_more_depth()
    ensures named { MoreDepth scopes names }
    ensures with_names { MoreDepth core_scopes cores }
    ensures without_names { MoreDepth bare_scopes bares }
{}

/// An expression has at most one type, which takes one number of units to find, or is refused at one place by one rule, and
/// never both.
pub fn one_type()
    ensures one { OneType }
    ensures refusal { OneRefusal }
    ensures not_both { TypeOrRefusal }
{}
