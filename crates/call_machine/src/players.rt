ghost use Rattle.std.specs.Prelude.{◌≡◌, IfOk, Some, map};
ghost use Rattle.thread_scripts.specs.Meaning.{next_of};
ghost use Rattle.call_machine.specs.Starting.{first_player};
ghost use Rattle.call_machine.specs.Playing.{heard};

use posix_terms::{Answer, Reply};
use std::alloc::{AllocError, Global};
use thread_scripts::{Script, ScriptActor, Step};

// A script that plays a thread: with the last reply, which it sees with its next step, and whether its last step had no
// room on the thread's clock. By then the script has gone on, so it is asked no more.
#[derive(Drop)]
pub struct Player {
    pub actor: ScriptActor,
    pub last: Option<Reply>,
    pub stuck: bool,
}

impl Player {
    // The script's next step. Without memory for it the run is over, so nothing is saved for that.
    pub fn next(&mut self) -> Result<Step, AllocError>
        ensures step { IfOk result (λ step. step ≡ (next_of self.old.last self.old.actor).0) }
        ensures after { IfOk result (λ _. self.new
            ≡ record self.old { actor = (next_of self.old.last self.old.actor).1; last = None }) }
    {
        match self.actor.next_unsaved(self.last.take()) {
            Ok(step) => Ok(step),
            Err(_) => Err(AllocError),
        }
    }

    // The script's call has this answer.
    pub fn hear(&mut self, told: Answer)
        ensures { self.new ≡ heard (Some told) self.old }
    {
        if let Answer::Reply(reply) = told {
            self.last = Some(reply);
        }
    }
}

// Each script before its first line.
pub fn first_players(alloc: Global, scripts: Vec<Script>) -> Result<Vec<Player>, AllocError>
    ensures { IfOk result (λ players. players.items ≡ map first_player scripts.items) }
{
    let mut players = Vec::new(alloc);
    for script in scripts {
        players.push(first_player(script))?;
    }
    Ok(players)
}

fn first_player(script: Script) -> Player
    ensures { result ≡ first_player script }
{
    Player {
        actor: ScriptActor::new(script),
        last: None,
        stuck: false,
    }
}
