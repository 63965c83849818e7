//! The line of relations, laid in a piece, so no memory is taken.

ghost use Rattle.std.specs.Prelude.{◌≡◌, ℕ, ◌<◌, List, [], ◌++◌, length, MatchResult};
ghost use Rattle.std.specs.Io.KnownBytes.{Appends};
ghost use Rattle.polybool.specs.Pieces.{text_of_piece};
ghost use Rattle.polybool.specs.Texts.{relations_text};

use crate::piece::Piece;
use crate::send::WriteFailed;
use polygon_overlay::relate::Relations;
use std::io::Write;

/// Writes each relation's name, and whether it holds. Where a write fails, a beginning of it went out, and not all.
pub fn write_relations<W: Write>(writer: &mut W, relations: Relations) -> Result<(), WriteFailed>
    ensures { (sent unsent : List ℕ) × (relations_text relations ≡ sent ++ unsent)
        × Appends (W.contents writer.old) (W.contents writer.new) sent × MatchResult result (λ _. unsent ≡ []) (λ _. 0 < length unsent) }
{
    let mut piece = lay_relations(relations);
    piece.send(writer)
}

fn lay_relations(relations: Relations) -> Piece
    ensures { text_of_piece result ≡ relations_text relations }
{
    let mut piece = Piece::new();
    piece.push_fact(b"intersects ", relations.intersects);
    piece.push_fact(b" interiors_intersect ", relations.interiors_intersect);
    piece.push_fact(b" touches ", relations.touches);
    piece.push_fact(b" point_intersects ", relations.point_intersects);
    piece.push_fact(b" within ", relations.within);
    piece.push_fact(b" disjoint ", relations.disjoint);
    piece.push_fact(b" covers ", relations.covers);
    piece.push(b'\n');
    piece
}
