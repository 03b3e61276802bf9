// A rule as a text has it.
ghost use Rattle.std.specs.Prelude.{◌≡◌, ◌+◌, ◌≤◌, true, length, IfOk, OnOk};
ghost use Rattle.makes.specs.Bodies.{body_items};
ghost use Rattle.makes.specs.Flats.{rule_of};
ghost use Rattle.text.specs.Rules.{one_literal, body_at, head_at, rule_at};
ghost use Rattle.text.specs.Cursors.{Takes, Took, TookAs};

use crate::cursor::Cursor;
use crate::numbers::MAX_NUMBER;
use crate::site::Site;
use books::fault::ReadFault;
use makes::body::Body;
use makes::rows::RuleRow;

impl Cursor<'_> {
    // Reads one more atom of a list into the body, and says whether another follows. A seventh is refused.
    fn literal(&mut self, site: Site, before: usize, body: &mut Body) -> Result<bool, ReadFault>
        requires { before ≤ 6 }
        ensures value { Takes (λ more at. record { atoms = body_items body.new; more = more; next = at }) result self.old self.new (one_literal self.old.text.now site before (record { atoms = body_items body.old; more = true; next = self.old.at })) }
        ensures longer { OnOk result (length (body_items body.new) ≡ length (body_items body.old) + 1) }
    {
        // The cast loses nothing: the number has 32 bits. So does the head's.
        let atom = self.number(MAX_NUMBER)? as usize;
        if body.push(atom).is_err() {
            return Err(ReadFault::TooMany { place: site.form });
        }
        if atom >= site.atoms {
            return Err(ReadFault::AtomMissing {
                rule: site.rule,
                literal: before + body.count(),
            });
        }
        self.list_onward()
    }

    // The atoms of a list; the rule has `before` literals before the list.
    #[tactic(auto, unfolding(crate::specs::Rules::body_at))]
    fn body(&mut self, site: Site, before: usize) -> Result<Body, ReadFault>
        requires { before ≤ 6 }
        ensures value { TookAs body_items result self.old self.new (body_at self.old.text.now site before self.old.at) }
        ensures few { IfOk result (λ body. length (body_items body) ≤ 6) }
    {
        let mut more = self.open_list()?;
        let mut body = Body::empty();
        while more {
            more = self.literal(site, before, &mut body)?;
        }
        Ok(body)
    }

    fn head(&mut self, site: Site) -> Result<usize, ReadFault>
        ensures { Took result self.old self.new (head_at self.old.text.now site self.old.at) }
    {
        let atom = self.number(MAX_NUMBER)? as usize;
        if atom >= site.atoms {
            return Err(ReadFault::AtomMissing {
                rule: site.rule,
                literal: 0,
            });
        }
        Ok(atom)
    }

    // Head, positives and negatives, each after a space.
    #[tactic(auto, unfolding(crate::specs::Rules::rule_at))]
    pub(crate) fn rule(&mut self, site: Site) -> Result<RuleRow, ReadFault>
        ensures { TookAs rule_of result self.old self.new (rule_at self.old.text.now site self.old.at) }
    {
        self.pass(b' ')?;
        let head = self.head(site)?;
        self.pass(b' ')?;
        let positives = self.body(site, 0)?;
        self.pass(b' ')?;
        let negatives = self.body(site, positives.count())?;
        Ok(RuleRow {
            head,
            positives,
            negatives,
        })
    }
}
